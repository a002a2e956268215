// The calls of the contact.
ghost use Rattle.board.specs.Rehearsing.{Guards};
ghost use Rattle.scale.specs.Scales.{whole};
ghost use Rattle.honest_contact.specs.Contact.{Carries, Contacts, Prepared, Succeeds, exchanged};

use board::{Act, Board, rehearse, values_are_single};
use medium::Medium;
use scale::Whole;

// What B sends: its number and the nonce.
const ASKING: &[u8] = b"PA\x01N\x00\x00";

// What G sends, sealed for both: its number, the nonce and the text.
const ANSWER: &[u8] = b"EK\x00\x01PA\x00PN\x00\x00T\x00\x00";

// B plays the bus and G the ground, and each message is delivered as it was sent.
fn play<M: Medium>(board: &mut Board, medium: &mut M) -> usize
    ensures contacts { Contacts M.meaning M.steps board.old medium.old board.new medium.new result }
    ensures guarded { Guards whole M.meaning board.old medium.old board.new }
{
    let (bus, ground) = (0, 1);
    let acts = [
        Act::Start {
            role: 0,
            agent: 1,
            values: [0; 5],
        },
        Act::Start {
            role: 1,
            agent: 0,
            values: [0; 5],
        },
        Act::Send { session: bus },
        Act::Deliver {
            session: ground,
            bytes: ASKING,
        },
        Act::Signal { session: ground },
        Act::Send { session: ground },
        Act::Deliver {
            session: bus,
            bytes: ANSWER,
        },
        Act::Signal { session: bus },
    ];
    rehearse::<Whole, M>(board, medium, &acts)
}

// Makes the calls of an honest contact, and answers how many were declined.
pub fn contact<M: Medium>(board: &mut Board, medium: &mut M) -> usize
    ensures contacts { Contacts M.meaning M.steps board.old medium.old board.new medium.new result }
    ensures guarded { Guards whole M.meaning board.old medium.old board.new }
    ensures succeeds { Prepared board.old → Carries M.meaning M.steps medium.old exchanged → Succeeds result board.new }
{
    values_are_single();
    play(board, medium)
}
