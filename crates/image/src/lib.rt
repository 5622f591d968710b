//! A state's image: one record of kind ST or SX, written from a state, read back, and judged.
#![tactic(auto)]

ghost use Rattle.std.specs.Prelude.{◌≡◌, true, ◌≤◌, [], ◌∷◌, ◌++◌, length, drop};
ghost use Rattle.machine_spec.specs.Machine.{accepted_of};
ghost use Rattle.image_spec.specs.Image.{image_length, image_of, machine_of, parts_exact, exact_image, valid_image};
ghost use Rattle.image_spec.specs.Layout.{phase_at, phase_length, tail_at, part, chip_of};
ghost use Rattle.image_spec.specs.ClockLayout.{second_of};

use clock::Clock;
use clock_spec::{Chip, Phase, Store};
use disk_lines::DiskLines;
use disk_spec::{Drive, Drives, Strobe};
use image_layout::{
    CELLS, CELLS_LENGTH, EXTERNAL, HEAD, INPUTS, INTERNAL, LINES, Layout, PHASE, PHASE_BYTES,
    PHASE_LENGTH, REGISTERS, Registers, SENSE, STROBE, TAIL, VIA, part, put,
};
use machine_spec::Machine;
use via::Via;

/// Writes a state's image; that of an accepted state is valid and gives the state back. The tail goes first: after the other parts, compiled code would copy
/// the cells once more to write it.
pub fn save(image: &mut [u8], m: Machine)
    requires { length image.old ≡ image_length m.clock.store.chip }
    ensures image_after { image.new ≡ image_of m }
    ensures given_back { accepted_of m ≡ true → machine_of image.new ≡ m }
    ensures valid_after { accepted_of m ≡ true → valid_image image.new ≡ true }
{
    let store = &m.clock.store;
    let phase: [u8; PHASE_BYTES] = m.clock.phase.to_bytes();
    let registers = Registers {
        protect: store.protect,
        test: store.test,
        seconds: store.seconds,
    };
    image_layout::put_tail(&mut image[TAIL..], store.chip, m.clock.phase, &store.cells);
    put(image, HEAD, store.chip);
    put(image, VIA, m.via);
    put(image, PHASE, part::<PHASE_LENGTH>(&phase, 0));
    put(image, REGISTERS, registers);
    put(image, CELLS, part::<CELLS_LENGTH>(&store.cells, 0));
    put(image, LINES, m.disk);
    put(image, INPUTS, m.inputs);
    put(image, SENSE, m.sense);
    put(image, INTERNAL, m.drives.internal);
    put(image, EXTERNAL, m.drives.external);
    put(image, STROBE, m.drives.strobe);
}

/// The bytes of the half-made command: the four in its place, and the second command byte.
fn phase_bytes(image: &[u8]) -> [u8; PHASE_BYTES]
    requires { tail_at ≤ length image.now }
    ensures { result ≡ part phase_at phase_length image.now ++ (second_of (drop tail_at image.now) ∷ []) }
{
    let [kind, first, count, bits] = part::<PHASE_LENGTH>(image, PHASE);
    [
        kind,
        first,
        count,
        bits,
        image_layout::second(&image[TAIL..]),
    ]
}

/// The state of an image. The clock is read first: it alone branches, and what is read before a branch, compiled code stores twice.
#[tactic(auto, unfolding(image_spec::specs::Image::machine_of))]
pub fn load(image: &[u8]) -> Machine
    requires { length image.now ≡ image_length (chip_of image.now) }
    ensures { result ≡ machine_of image.now }
{
    let chip = Chip::from_bytes(part(image, HEAD));
    let Registers {
        protect,
        test,
        seconds,
    } = Registers::from_bytes(part(image, REGISTERS));
    Machine {
        clock: Clock {
            phase: Phase::from_bytes(phase_bytes(image)),
            store: Store {
                chip,
                cells: image_layout::cells(chip, part(image, CELLS), &image[TAIL..]),
                seconds,
                protect,
                test,
            },
        },
        via: Via::from_bytes(part(image, VIA)),
        disk: DiskLines::from_bytes(part(image, LINES)),
        inputs: part(image, INPUTS),
        sense: part(image, SENSE),
        drives: Drives {
            internal: Drive::from_bytes(part(image, INTERNAL)),
            external: Drive::from_bytes(part(image, EXTERNAL)),
            strobe: Strobe::from_bytes(part(image, STROBE)),
        },
    }
}

/// Save, then restore: the same state.
pub fn restored(m: Machine, image: &mut [u8]) -> Machine
    requires image_len { length image.old ≡ image_length m.clock.store.chip }
    requires m_value { accepted_of m ≡ true }
    ensures value { result ≡ m }
    ensures image_after { image.new ≡ image_of m }
{
    save(image, m);
    load(image)
}

/// Whether each part has the very bytes of the value that it stands for. The cells, the IN lines and the sense levels stand as they are read.
fn exact_parts(image: &[u8]) -> bool
    requires { length image.now ≡ image_length (chip_of image.now) }
    ensures { result ≡ parts_exact image.now }
{
    let head = image_layout::exact_head(image, Chip::from_bytes(part(image, HEAD)));
    let via = image_layout::exact::<Via, _>(part(image, VIA));
    let phase = image_layout::exact::<Phase, _>(phase_bytes(image));
    let registers = image_layout::exact::<Registers, _>(part(image, REGISTERS));
    let lines = image_layout::exact::<DiskLines, _>(part(image, LINES));
    let internal = image_layout::exact::<Drive, _>(part(image, INTERNAL));
    let external = image_layout::exact::<Drive, _>(part(image, EXTERNAL));
    let strobe = image_layout::exact::<Strobe, _>(part(image, STROBE));
    head & via & (phase & registers) & lines & (internal & external & strobe)
}

/// Whether these are the very bytes of the state that they stand for; with that state accepted, the image is valid.
pub fn exact(image: &[u8]) -> bool
    ensures { result ≡ exact_image image.now }
{
    if image.len() < TAIL {
        return false;
    }
    let chip = Chip::from_bytes(part(image, HEAD));
    image.len() == image_layout::image_length(chip) && exact_parts(image)
}
