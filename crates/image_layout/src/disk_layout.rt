//! The disk lines, the drives and their strobe in an image.
ghost use Rattle.std.specs.Prelude.{◌≡◌};
ghost use Rattle.disk_lines.specs.Lines.{line_levels, lines_of};
ghost use Rattle.disk_lines.proofs.Laws.{lines-back};
ghost use Rattle.image_spec.specs.DriveLayout.{drive_bytes, drive_of, strobe_bytes, strobe_of};
ghost use Rattle.image_spec.proofs.DriveBack.{drive-back, strobe-back};
ghost use Rattle.image_layout.specs.Values.{LinesFit, DriveFits, StrobeFits};

use crate::{DRIVE_LENGTH, LINES_LENGTH, Layout, STROBE_LENGTH};
use disk_lines::DiskLines;
use disk_spec::{Drive, Strobe};

impl Layout<LINES_LENGTH> for DiskLines {
    ghost bytes_of = { line_levels };

    ghost value_of = { lines_of };

    ghost Fits = { LinesFit };

    fn to_bytes(self) -> [u8; LINES_LENGTH]
        ensures { result ≡ line_levels self }
    {
        self.levels()
    }

    fn from_bytes(bytes: [u8; LINES_LENGTH]) -> DiskLines
        ensures { result ≡ lines_of bytes }
    {
        DiskLines::from_levels(bytes)
    }

    ghost back = { lines-back };
}

impl Layout<DRIVE_LENGTH> for Drive {
    ghost bytes_of = { drive_bytes };

    ghost value_of = { drive_of };

    ghost Fits = { DriveFits };

    #[tactic(auto, unfolding(image_spec::specs::DriveLayout::drive_bytes))]
    fn to_bytes(self) -> [u8; DRIVE_LENGTH]
        ensures { result ≡ drive_bytes self }
    {
        let [pending_low, pending_high] = self.pending.to_le_bytes();
        [
            self.track,
            self.direction as u8,
            self.disk as u8,
            self.locked as u8,
            self.sides as u8,
            self.motor as u8,
            pending_low,
            pending_high,
            self.heading as u8,
        ]
    }

    #[tactic(auto, unfolding(image_spec::specs::DriveLayout::drive_of))]
    fn from_bytes(bytes: [u8; DRIVE_LENGTH]) -> Drive
        ensures { result ≡ drive_of bytes }
    {
        Drive {
            track: bytes[0],
            direction: bytes[1] == 1,
            disk: bytes[2] == 1,
            locked: bytes[3] == 1,
            sides: bytes[4] == 1,
            motor: bytes[5] == 1,
            pending: u16::from_le_bytes([bytes[6], bytes[7]]),
            heading: bytes[8] == 1,
        }
    }

    ghost back = { drive-back };
}

impl Layout<STROBE_LENGTH> for Strobe {
    ghost bytes_of = { strobe_bytes };

    ghost value_of = { strobe_of };

    ghost Fits = { StrobeFits };

    #[tactic(auto, unfolding(image_spec::specs::DriveLayout::strobe_bytes))]
    fn to_bytes(self) -> [u8; STROBE_LENGTH]
        ensures { result ≡ strobe_bytes self }
    {
        let [t0, t1, t2, t3] = self.ticks.to_le_bytes();
        [t0, t1, t2, t3, self.steady as u8]
    }

    #[tactic(auto, unfolding(image_spec::specs::DriveLayout::strobe_of))]
    fn from_bytes(bytes: [u8; STROBE_LENGTH]) -> Strobe
        ensures { result ≡ strobe_of bytes }
    {
        let [t0, t1, t2, t3, steady] = bytes;
        Strobe {
            ticks: u32::from_le_bytes([t0, t1, t2, t3]),
            steady: steady == 1,
        }
    }

    ghost back = { strobe-back };
}
