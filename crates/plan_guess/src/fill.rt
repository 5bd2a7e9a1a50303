// What an order brings by room alone: each request in its turn is kept where every span has room left, and nothing gives way. Of two orders the one that brings
// more so leaves less to search for. Nothing is promised but safety.
ghost use Rattle.std.specs.Prelude.{◌≡◌, ◌≤◌, ◌<◌, length};

use crate::requests::Requests;

// What request r brings: its profit where it fits, and then it takes its room.
fn brought(r: usize, requests: &Requests, room: &mut [usize; 64]) -> usize {
    if requests.count() <= r {
        return 0;
    }
    let a = requests.lo[r];
    let b = requests.hi[r];
    if b <= 64 && base_lists::room_between(room, a, b) {
        base_lists::take_room(room, a, b);
        return requests.profit[r];
    }
    0
}

// What the order brings.
fn filled(limits: &[usize], requests: &Requests, order: &[usize]) -> usize
    requires { length limits.now < 64 }
{
    let mut room = [0usize; 64];
    room[..limits.len()].copy_from_slice(limits);
    let mut sum: usize = 0;
    for r in order {
        sum = sum.saturating_add(brought(*r, requests, &mut room));
    }
    sum
}

// The other order, by prices with this ceiling, in place of this one, where it brings more or hardly less. Prices whose ceiling lies far above what their order
// brings are bad ones: no plan earns more than the ceiling, and good prices' order comes near it.
pub fn take_better(
    limits: &[usize],
    requests: &Requests,
    ceiling: Option<usize>,
    other: &[usize],
    order: &mut [usize],
)
    requires limits { length limits.now < 64 }
    requires orders { length other.now ≡ length order.old }
{
    let new = filled(limits, requests, other);
    if ceiling.is_some_and(|ceiling| new / 7 < ceiling.saturating_sub(new)) {
        return;
    }
    let old = filled(limits, requests, order);
    if old - old / 64 <= new {
        order.copy_from_slice(other);
    }
}
