// One step of the display's reader, whose two buffers stand one behind the other in a case.
ghost use Rattle.std.specs.Prelude.{◌≡◌, ◌≤◌, length};
ghost use Rattle.replay.specs.Replies.{of_handed, stepped, stepped_left};

use crate::call::Reply;
use bus::field;
use lumbrisse::reply;

fn of_handed(h: reply::Handed) -> Option<Reply>
    ensures { result ≡ Some (of_handed h) }
{
    Some(Reply {
        number: h.number,
        place: h.place,
        count: h.count,
        value: 0,
        tag: h.tag,
    })
}

// The reader stands at `at`; the row's buffer, the first b bytes of `lent`, is lent in `spare`, the text's in place.
pub fn stepped(
    packet: &[u8],
    at: usize,
    b: usize,
    lent: &mut [u8],
    spare: &mut [u8],
) -> Option<Reply>
    requires { length lent.old ≤ length spare.old }
    ensures answer { result ≡ stepped at b packet.now lent.old }
    ensures bytes { lent.new ≡ stepped_left at b packet.now lent.old }
{
    if lent.len() < b {
        return None;
    }
    field::copy_part(lent, 0, b, spare);
    let h = lumbrisse::lumbrisse_packet_next(packet, at, &mut spare[0..b], &mut lent[b..]);
    field::copy_part(spare, 0, b, lent);
    of_handed(h)
}
