//! The keyboard of request W-210 and source document 000, a part of its own: a command byte, a key code or a wait in VIA ticks goes in, an answer byte,
//! none, or a refusal comes out.
#![tactic(auto)]

ghost use Rattle.std.specs.Prelude.{◌≡◌, true, ◌<◌, drop, cond, Option, Result, Some, None, Ok, Err, is_some, unwrap_or, slice_get};
ghost use Rattle.refusal.specs.declared.Refusal.TheVariants.{NotAccepted};
ghost use Rattle.keyboard.specs.State.{codes_of, with_codes, fresh_keyboard, all_zero, accepted_of};
ghost use Rattle.keyboard.specs.Numbers.{answers_of, byte_of};
ghost use Rattle.keyboard.specs.Steps.{command_of, key_of, wait_of};

use refusal::Refusal;

/// How many key codes are kept.
const CAPACITY: usize = 8;

/// VIA ticks after which a waiting Inquiry answers Null, a quarter of a second.
const NULL_TICKS: u32 = 195_840;

// The command bytes that have an answer.
const INQUIRY: u8 = 0x10;

const INSTANT: u8 = 0x14;

const MODEL: u8 = 0x16;

const TEST: u8 = 0x36;

/// A keyboard's state.
// Its fields are public and any: the image of each state, and theorems such as `restore-saved` and `refusal-keeps`, speak of states out of range too.
#[derive(Clone, Copy, PartialEq, Eq)]
pub struct Keyboard {
    /// The byte that Model answers, any.
    pub model: u8,
    /// How many key codes are held, 0 to 8.
    pub held: u8,
    /// These codes, the oldest first; places not in use hold 0.
    pub codes: [u8; CAPACITY],
    /// VIA ticks until a waiting Inquiry answers Null, 1 to 195,840; 0: none waits.
    pub left: u32,
}

/// What the keyboard answers.
#[derive(Clone, Copy, PartialEq, Eq)]
pub enum Reply {
    /// A key code.
    Code(u8),
    /// No key: to Instant at once, to Inquiry once its time has passed.
    Null,
    /// The model.
    Model(u8),
    /// The test passed.
    Ack,
}

impl Reply {
    /// The answer byte.
    #[tactic(auto, unfolding(crate::specs::Numbers::byte_of))]
    pub fn byte(self) -> u8
        ensures { result ≡ byte_of (Ok (Some self)) }
    {
        match self {
            Reply::Code(code) => code,
            Reply::Null => 0x7B,
            Reply::Model(model) => model,
            Reply::Ack => 0x7D,
        }
    }
}

/// What comes out at a command, a key or a wait: an answer, none, or a refusal.
pub type Response = Result<Option<Reply>, Refusal>;

/// The answer byte of a response; `None` where it has none.
#[tactic(auto, unfolding(crate::specs::Numbers::answers_of, crate::specs::Numbers::byte_of))]
pub fn answer_byte(response: Response) -> Option<u8>
    ensures answers { is_some result ≡ answers_of response }
    ensures byte { unwrap_or result 0 ≡ byte_of response }
{
    match response {
        Ok(reply) => reply.map(Reply::byte),
        Err(_) => None,
    }
}

/// Whether no place holds a code.
fn all_zero(places: &[u8]) -> bool
    ensures { result ≡ all_zero places.now }
{
    places.iter().all(|&code| code == 0)
}

impl Keyboard {
    /// A keyboard with no code held and no Inquiry waiting.
    pub fn new(model: u8) -> Keyboard
        ensures { result ≡ fresh_keyboard model }
    {
        Keyboard {
            model,
            held: 0,
            codes: [0; CAPACITY],
            left: 0,
        }
    }

    /// Whether the state is in its ranges.
    #[tactic(auto, unfolding(crate::specs::State::accepted_of))]
    pub fn is_accepted(&self) -> bool
        ensures { result ≡ accepted_of self.now }
    {
        self.held as usize <= CAPACITY
            && all_zero(&self.codes[self.held as usize..])
            && self.left <= NULL_TICKS
            && (self.left == 0 || self.held == 0)
    }

    /// Refuses a state outside its ranges.
    fn check(&self) -> Result<(), Refusal>
        ensures { result ≡ cond (accepted_of self.now) (Ok tt) (Err NotAccepted) }
    {
        if self.is_accepted() {
            Ok(())
        } else {
            Err(Refusal::NotAccepted)
        }
    }

    /// Takes the oldest code held away, if one is.
    fn take_oldest(&mut self) -> Option<u8>
        requires { accepted_of self.old ≡ true }
        ensures oldest { result ≡ slice_get (codes_of self.old) 0 }
        ensures left { self.new ≡ with_codes self.old (drop 1 (codes_of self.old)) }
    {
        if self.held == 0 {
            return None;
        }
        let oldest = self.codes[0];
        self.codes.rotate_left(1);
        self.codes[CAPACITY - 1] = 0;
        self.held -= 1;
        Some(oldest)
    }

    /// A command byte: it ends a waiting Inquiry. An Inquiry with no code held waits for a key.
    #[tactic(auto, using(crate::proofs::Checked::ended), unfolding(crate::specs::Steps::command_of, crate::specs::Steps::answer_to))]
    pub fn command(&mut self, byte: u8) -> Response
        ensures after { self.new ≡ (command_of byte self.old).keyboard }
        ensures said { result ≡ (command_of byte self.old).response }
    {
        self.check()?;
        self.left = 0;
        let reply = match byte {
            INQUIRY => match self.take_oldest() {
                Some(code) => Some(Reply::Code(code)),
                None => {
                    self.left = NULL_TICKS;
                    None
                }
            },
            INSTANT => Some(self.take_oldest().map_or(Reply::Null, Reply::Code)),
            MODEL => Some(Reply::Model(self.model)),
            TEST => Some(Reply::Ack),
            _ => None,
        };
        Ok(reply)
    }

    /// A key code: it answers a waiting Inquiry, or is kept, or is one too many.
    #[tactic(auto, unfolding(crate::specs::Steps::key_of))]
    pub fn key(&mut self, code: u8) -> Response
        ensures after { self.new ≡ (key_of code self.old).keyboard }
        ensures said { result ≡ (key_of code self.old).response }
    {
        self.check()?;
        if self.left > 0 {
            self.left = 0;
            return Ok(Some(Reply::Code(code)));
        }
        if self.held as usize == CAPACITY {
            return Err(Refusal::TooManyKeys);
        }
        self.codes[self.held as usize] = code;
        self.held += 1;
        Ok(None)
    }

    /// So many VIA ticks pass, worked out at once.
    #[tactic(auto, unfolding(crate::specs::Steps::wait_of))]
    pub fn wait(&mut self, ticks: u32) -> Response
        ensures after { self.new ≡ (wait_of ticks self.old).keyboard }
        ensures said { result ≡ (wait_of ticks self.old).response }
    {
        self.check()?;
        let ends = self.left != 0 && self.left <= ticks;
        self.left = self.left.saturating_sub(ticks);
        Ok(ends.then_some(Reply::Null))
    }
}
