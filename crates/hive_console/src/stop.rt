// Why a listing ends before its last line.
ghost use Rattle.std.specs.Prelude.{◌≡◌};
ghost use Rattle.words.specs.Paper.{number_of};
ghost use Rattle.hive_console.specs.declared.stop.Stop.TheVariants.{Unread, Unwritten, Refused};

use console::{Stderr, Stdout};
use std::fmt::Write;
use std::{fmt, io};
use words::{Reason, Refusal, RoomRefusal};

#[derive(Clone, Copy)]
pub enum Stop {
    // An input, or a supplier's listing, that cannot be read: nothing is listed then.
    Unread,
    UnreadListing,
    Unwritten,
    NoCommand,
    Refused(u32),
}

impl From<io::Error> for Stop {
    ghost from_gives = { λ e stop. stop ≡ Unread };

    fn from(_error: io::Error) -> Stop {
        Stop::Unread
    }
}

impl From<fmt::Error> for Stop {
    ghost from_gives = { λ e stop. stop ≡ Unwritten };

    fn from(_error: fmt::Error) -> Stop {
        Stop::Unwritten
    }
}

impl From<Reason> for Stop {
    ghost from_gives = { λ reason stop. stop ≡ Refused (number_of reason) };

    fn from(reason: Reason) -> Stop {
        Stop::Refused(reason.number())
    }
}

impl From<Refusal> for Stop {
    ghost from_gives = { λ refusal stop. stop ≡ Refused (number_of refusal.reason) };

    fn from(refusal: Refusal) -> Stop {
        Stop::Refused(refusal.reason.number())
    }
}

impl From<RoomRefusal> for Stop {
    ghost from_gives = { λ refusal stop. stop ≡ Refused (number_of refusal.reason) };

    fn from(refusal: RoomRefusal) -> Stop {
        Stop::Refused(refusal.reason.number())
    }
}

impl Stop {
    // The last line: `refused N` on standard output, or what went wrong on standard error.
    fn line(self, out: &mut Stdout) -> fmt::Result {
        match self {
            Stop::Unread => writeln!(Stderr, "listing: the input cannot be read"),
            Stop::UnreadListing => writeln!(Stderr, "listing: the listing cannot be read"),
            Stop::Unwritten => writeln!(Stderr, "listing: the output cannot be written"),
            Stop::NoCommand => writeln!(Stderr, "listing: no such command"),
            Stop::Refused(number) => writeln!(out, "refused {number}"),
        }
    }
}

// Tells what stopped a listing, and at the end whether any of it was not taken. If that cannot be written, nobody is told.
pub fn told(outcome: Result<(), Stop>, out: Stdout) {
    let mut out = out;
    if let Err(stop) = outcome {
        let _ = stop.line(&mut out);
    }
    if !out.is_whole() {
        let _ = Stop::Unwritten.line(&mut out);
    }
}
