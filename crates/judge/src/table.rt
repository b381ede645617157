// The table of message by state.
ghost use Rattle.std.specs.Prelude.{◌<◌, ◌≡◌, ◌⊎◌};
ghost use Rattle.rules.specs.Messages as messages;
ghost use Rattle.rules.specs.Refusals.{refused_by};

use rules::{DONE, Refusal};

// The entries of the table: numbers, since document 01 names that form (docs/RULES.md, the 36 entries).
const TAKEN: u8 = DONE as u8;

const WRONG: u8 = Refusal::WrongState as u8;

const PAUSE: u8 = Refusal::InPause as u8;

const ENDED: u8 = Refusal::ClosedStock as u8;

// T, Q, O, P, R and X by the states 0 to 5: 0, or the number that refuses the message.
const TAKES: [[u8; 6]; 6] = [
    [TAKEN, TAKEN, TAKEN, PAUSE, PAUSE, ENDED],
    [TAKEN, TAKEN, TAKEN, TAKEN, TAKEN, ENDED],
    [TAKEN, WRONG, WRONG, WRONG, WRONG, ENDED],
    [WRONG, TAKEN, WRONG, WRONG, WRONG, ENDED],
    [WRONG, WRONG, WRONG, TAKEN, WRONG, ENDED],
    [WRONG, WRONG, WRONG, WRONG, TAKEN, ENDED],
];

// What an entry says.
fn said(entry: u8) -> Result<(), Refusal>
    requires { (entry ≡ 0) ⊎ (entry ≡ 9) ⊎ (entry ≡ 11) ⊎ (entry ≡ 7) }
    ensures { refused_by result ≡ entry }
{
    match entry {
        TAKEN => Ok(()),
        WRONG => Err(Refusal::WrongState),
        PAUSE => Err(Refusal::InPause),
        ENDED => Err(Refusal::ClosedStock),
        _ => unreachable!(),
    }
}

// Whether the state takes the kind of message, or why not; a state over 5 refuses as Closed does.
pub(crate) fn taken(kind: usize, state: u32) -> Result<(), Refusal>
    requires { kind < 6 }
    ensures { refused_by result ≡ messages.taken kind state }
{
    let column = state as usize;
    if column < 6 {
        return said(TAKES[kind][column]);
    }
    Err(Refusal::ClosedStock)
}
