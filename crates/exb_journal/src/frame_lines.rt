//! The lines that the journal has for each frame, written from their end, so that no formatter
//! runs.
ghost use Rattle.std.specs.Prelude.{◌≡◌, ◌+◌, ◌≤◌, ◌<◌, ◌∷◌, ◌++◌, [], codes, decimal, drop, flat_map, length, IfSome};
ghost use Rattle.exb_model.specs.Texts.{line_of, port_name};

use exb_model::event::Event;
use exb_model::port::PortId;
use itoa::write_digits;

/// Room for the lines of one frame: a tick, what became of it, and that all is settled.
pub(crate) const ROOM: usize = 128;

/// The longest of them with its newline, `ignore x64.64` and a number of twenty digits, is shorter.
const LINE: usize = 40;

/// Puts bytes before a place, and answers where they begin.
#[inline(always)]
fn put(room: &mut [u8; ROOM], bytes: &[u8], end: usize) -> usize
    requires room { length bytes.now ≤ end }
    requires within { end ≤ 128 }
    ensures start { result + length bytes.now ≡ end }
    ensures written { drop result room.new ≡ bytes.now ++ drop end room.old }
{
    let start = end - bytes.len();
    room[start..end].copy_from_slice(bytes);
    start
}

/// Puts a number below 100 before a place, and answers where it begins.
#[inline(always)]
fn put_small(room: &mut [u8; ROOM], number: u8, end: usize) -> usize
    requires room { 2 ≤ end }
    requires within { end ≤ 128 }
    requires small { number < 100 }
    ensures start { end ≤ result + 2 }
    ensures below { result ≤ end }
    ensures written { drop result room.new ≡ decimal number ++ drop end room.old }
{
    write_digits(u64::from(number), room, end)
}

/// Puts the name of a port before a place, and answers where it begins.
fn put_port(room: &mut [u8; ROOM], port: PortId, end: usize) -> usize
    requires room { 6 ≤ end }
    requires within { end ≤ 128 }
    ensures start { end ≤ result + 6 }
    ensures below { result ≤ end }
    ensures written { drop result room.new ≡ port_name port ++ drop end room.old }
{
    let device = port.device();
    let place = put_small(room, port.place() + 1, end);
    if device == 0 {
        return put(room, b"b", place);
    }
    let point = put(room, b".", place);
    let number = put_small(room, device, point);
    put(room, b"x", number)
}

/// Puts the line of an arrival before a place, and answers where it begins: a word, its port and
/// its index.
#[inline(always)]
fn put_arrival(room: &mut [u8; ROOM], word: &[u8], port: PortId, index: u64, before: usize) -> usize
    requires word { length word.now ≤ 7 }
    requires room { 40 ≤ before }
    requires within { before ≤ 128 }
    ensures within { result ≤ before }
    ensures written { drop result room.new ≡ (word.now ++ port_name port ++ codes " " ++ decimal index) ++ 10 ∷ drop before room.old }
{
    let end = put(room, b"\n", before);
    let digits = write_digits(index, room, end);
    let space = put(room, b" ", digits);
    let name = put_port(room, port, space);
    put(room, word, name)
}

/// Puts the line of a tick before a place, and answers where it begins.
fn put_tick(room: &mut [u8; ROOM], seconds: u32, before: usize) -> usize
    requires room { 40 ≤ before }
    requires within { before ≤ 128 }
    ensures within { result ≤ before }
    ensures written { drop result room.new ≡ (codes "tick " ++ decimal seconds) ++ 10 ∷ drop before room.old }
{
    let end = put(room, b"\n", before);
    let digits = write_digits(u64::from(seconds), room, end);
    put(room, b"tick ", digits)
}

/// Puts the line of a settled world before a place, and answers where it begins.
#[inline(always)]
fn put_settled(room: &mut [u8; ROOM], before: usize) -> usize
    requires room { 40 ≤ before }
    requires within { before ≤ 128 }
    ensures within { result ≤ before }
    ensures written { drop result room.new ≡ codes "settled" ++ 10 ∷ drop before room.old }
{
    put(room, b"settled\n", before)
}

/// Puts the line of an ignored frame or of a tick, with its newline, before a place, and answers
/// where it begins; None of any other event.
#[cold]
#[inline(never)]
#[tactic(auto, unfolding(exb_model::specs::Texts::line_of))]
fn rare_line(room: &mut [u8; ROOM], event: &Event, before: usize) -> Option<usize>
    requires room { 40 ≤ before }
    requires within { before ≤ 128 }
    ensures within { IfSome result (λ start. start ≤ before) }
    ensures written { IfSome result (λ start. drop start room.new
        ≡ line_of event.now ++ 10 ∷ drop before room.old) }
{
    let start = match event {
        Event::Ignored { port, index } => put_arrival(room, b"ignore ", *port, *index, before),
        Event::Tick { seconds } => put_tick(room, *seconds, before),
        _ => return None,
    };
    Some(start)
}

/// Puts the line of an event that comes with frames, with its newline, before a place, and answers
/// where it begins; None of any other event, and where there is no room. Of the two that each frame
/// has it is known by two comparisons which one it is.
#[inline(always)]
#[tactic(auto, unfolding(exb_model::specs::Texts::line_of))]
fn quick_line(room: &mut [u8; ROOM], event: &Event, before: usize) -> Option<usize>
    requires { before ≤ 128 }
    ensures within { IfSome result (λ start. start ≤ before) }
    ensures written { IfSome result (λ start. drop start room.new
        ≡ line_of event.now ++ 10 ∷ drop before room.old) }
{
    if before < LINE {
        return None;
    }
    let start = match event {
        Event::Relay { port, index, .. } => put_arrival(room, b"relay ", *port, *index, before),
        Event::Settled => put_settled(room, before),
        _ => return rare_line(room, event, before),
    };
    Some(start)
}

/// Puts the line of such an event at the end of the room, and answers where it begins; None of any
/// other event.
pub(crate) fn last_line(room: &mut [u8; ROOM], event: &Event) -> Option<usize>
    ensures within { IfSome result (λ start. start ≤ 128) }
    ensures written { IfSome result (λ start. drop start room.new ≡ line_of event.now ++ 10 ∷ []) }
{
    quick_line(room, event, ROOM)
}

/// Puts the lines of events at the end of the room, each with its newline, and answers where they
/// begin; None where one is none of those that come with frames, and where there is no room.
#[inline(always)]
pub(crate) fn quick_lines(room: &mut [u8; ROOM], events: &[Event]) -> Option<usize>
    ensures within { IfSome result (λ start. start ≤ 128) }
    ensures written { IfSome result (λ start. drop start room.new
        ≡ flat_map (λ e. line_of e ++ 10 ∷ []) events.now) }
{
    let mut start = ROOM;
    let mut left = events.len();
    'lines: while left > 0 {
        left -= 1;
        match quick_line(room, &events[left], start) {
            Some(place) => start = place,
            None => return None,
        }
    }
    Some(start)
}
