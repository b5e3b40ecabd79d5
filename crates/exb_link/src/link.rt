//! One direction of a link.
ghost use Rattle.std.specs.Prelude.{◌≡◌, ℕ, ◌+◌, ◌<◌, ◌^◌, ◌↔◌, ◌++◌, ◌∷◌, [], length, IsTrue, OnOk, OnErr, IfErr, slice_get, filter, map};
ghost use Rattle.std.specs.List.{remove};
ghost use Rattle.std.specs.Option.{option_copied};
ghost use Rattle.exb_link.specs.LinkFrames.{is_control, is_data, leading, without_data, without_control};
ghost use Rattle.exb_link.specs.Queues.{all_behind, more_ahead, more_behind, less_behind, place_from};

use crate::link_frame::BoxedFrame;
use std::alloc::Global;
use std::collections::VecDeque;
use std::marker::Model;

/// A word that found no memory on its link, handed back.
#[derive(Drop)]
pub struct PushBack {
    pub word: BoxedFrame,
}

/// How many data words and control words a link has.
#[derive(Clone, Copy)]
pub struct Counts {
    pub frames: u64,
    pub control: u64,
}

/// A data word, and how many control words were sent after it and before the next data word.
#[derive(Drop)]
pub struct QueuedFrame {
    word: BoxedFrame,
    behind: u64,
}

/// One direction of a link, seen as the list of its words in order of sending. Positions count its
/// control words in that order, from 0.
pub struct Link {
    frames: VecDeque<QueuedFrame>,
    control: VecDeque<BoxedFrame>,
    /// How many control words stand before the first data word.
    ahead: u64,
}

impl Drop for Link {
    fn drop(self) {
        let Link {
            frames: _,
            control: _,
            ahead: _,
        } = self;
    }
}

impl Model for Link {
    ghost use Rattle.std.specs.Prelude.{List};
    ghost use Rattle.exb_link.specs.declared.link_frame.LinkFrame.{LinkFrame};
    ghost use Rattle.exb_link.specs.Queues.{woven, IsWoven};

    ghost Value = { List LinkFrame };

    ghost view = { λ l. woven l.ahead l.frames.items l.control.items };

    ghost invariant = { λ l. IsWoven l.ahead l.frames.items l.control.items };
}

#[inline(always)]
fn push_frame(frames: &mut VecDeque<QueuedFrame>, word: BoxedFrame) -> Result<(), PushBack>
    ensures ok { OnOk result (frames.new.items ≡ frames.old.items ++ record {
      word = word;
      behind = 0;
    } ∷ []) }
    ensures err { OnErr result (frames.new.items ≡ frames.old.items) }
    ensures back { IfErr result (λ e. e.word ≡ word) }
{
    match frames.reserve(1) {
        Ok(()) => {
            frames.push_back_reserved(QueuedFrame { word, behind: 0 });
            Ok(())
        }
        Err(_) => Err(PushBack { word }),
    }
}

#[inline(always)]
fn push_control(control: &mut VecDeque<BoxedFrame>, word: BoxedFrame) -> Result<(), PushBack>
    ensures ok { OnOk result (control.new.items ≡ control.old.items ++ word ∷ []) }
    ensures room { OnOk result (length control.old.items + 1 < 2 ^ 64) }
    ensures err { OnErr result (control.new.items ≡ control.old.items) }
    ensures back { IfErr result (λ e. e.word ≡ word) }
{
    match control.reserve(1) {
        Ok(()) => {
            control.push_back_reserved(word);
            Ok(())
        }
        Err(_) => Err(PushBack { word }),
    }
}

// Takes out the word at a place among those of a queue.
#[inline(always)]
fn remove_at(words: &mut VecDeque<BoxedFrame>, place: usize) -> Option<BoxedFrame>
    ensures word { result ≡ slice_get words.old.items place }
    ensures rest { words.new.items ≡ remove words.old.items place }
{
    // Mostly it is the first, which leaves its queue and moves no other.
    if place == 0 {
        return words.pop_front();
    }
    words.remove(place)
}

fn word_at(words: &VecDeque<BoxedFrame>, place: usize) -> Option<&BoxedFrame>
    ensures { option_copied result ≡ slice_get words.now.items place }
{
    words.get(place)
}

fn first_of(frames: &VecDeque<QueuedFrame>) -> Option<&BoxedFrame>
    ensures { option_copied result ≡ slice_get (map (λ s. s.word) frames.now.items) 0 }
{
    match frames.front() {
        Some(sent) => Some(&sent.word),
        None => None,
    }
}

// Counts a control word that is sent behind all others: the last data word has one more behind it,
// or, where there is none, one more stands ahead.
#[cold]
#[inline(never)]
fn one_more_behind(ahead: u64, frames: &mut VecDeque<QueuedFrame>) -> u64
    requires { ahead + all_behind frames.old.items + 1 < 2 ^ 64 }
    ensures ahead { result ≡ more_ahead ahead frames.old.items }
    ensures frames { frames.new.items ≡ more_behind frames.old.items }
{
    match frames.back_mut() {
        Some(last) => {
            last.behind += 1;
            ahead
        }
        None => ahead + 1,
    }
}

// The place of the data word behind which the control word stands that is number `at` of those
// behind data words.
fn place_behind(at: u64, frames: &VecDeque<QueuedFrame>) -> Option<usize>
    ensures { result ≡ place_from at frames.now.items 0 }
{
    let mut rest = at;
    let mut place = 0;
    for sent in frames.iter() {
        if rest < sent.behind {
            return Some(place);
        }
        rest -= sent.behind;
        place += 1;
    }
    None
}

// Counts out the control word that is number `at` of those behind data words.
fn one_less_behind(at: u64, frames: &mut VecDeque<QueuedFrame>)
    ensures { frames.new.items ≡ less_behind at frames.old.items }
{
    if let Some(place) = place_behind(at, frames) {
        frames[place].behind -= 1;
    }
}

impl Link {
    /// The empty link.
    pub fn new(alloc: Global) -> Link
        ensures { result ≡ [] }
    {
        Link {
            frames: VecDeque::new(alloc),
            control: VecDeque::new(alloc),
            ahead: 0,
        }
    }

    /// Puts a word behind all others. The word comes back where there is no memory for it.
    #[inline(always)]
    pub fn push(&mut self, word: BoxedFrame) -> Result<(), PushBack>
        ensures ok { OnOk result (self.new ≡ self.old ++ word ∷ []) }
        ensures err { OnErr result (self.new ≡ self.old) }
        ensures back { IfErr result (λ e. e.word ≡ word) }
    {
        if word.is_control() {
            push_control(&mut self.control, word)?;
            self.ahead = one_more_behind(self.ahead, &mut self.frames);
        } else {
            push_frame(&mut self.frames, word)?;
        }
        Ok(())
    }

    /// The first data word; None exactly where there is none.
    pub fn first_data(&self) -> Option<&BoxedFrame>
        ensures { option_copied result ≡ slice_get (filter is_data self.now) 0 }
    {
        first_of(&self.frames)
    }

    /// The control word at a position; None exactly where there is none.
    pub fn control_at(&self, at: u64) -> Option<&BoxedFrame>
        ensures { option_copied result ≡ slice_get (filter is_control self.now) at }
    {
        word_at(&self.control, at as usize)
    }

    /// That there is a control word at that position, and no data word sent before it is left.
    pub fn free_at(&self, at: u64) -> bool
        ensures { IsTrue result ↔ (at < leading self.now) }
    {
        at < self.ahead
    }

    /// Takes out the first data word; None exactly where there is none. Every other word stays.
    #[inline(always)]
    pub fn take_data(&mut self) -> Option<BoxedFrame>
        ensures word { result ≡ slice_get (filter is_data self.old) 0 }
        ensures rest { self.new ≡ without_data self.old }
    {
        match self.frames.pop_front() {
            Some(QueuedFrame { word, behind }) => {
                self.ahead += behind;
                Some(word)
            }
            None => None,
        }
    }

    /// Takes out the control word at a position; None exactly where there is none. Every other word
    /// stays.
    #[inline(always)]
    pub fn take_control(&mut self, at: u64) -> Option<BoxedFrame>
        ensures word { result ≡ slice_get (filter is_control self.old) at }
        ensures rest { self.new ≡ without_control self.old at }
    {
        let word = remove_at(&mut self.control, at as usize)?;
        if at < self.ahead {
            self.ahead -= 1;
        } else {
            one_less_behind(at - self.ahead, &mut self.frames);
        }
        Some(word)
    }

    /// Whether there is no word.
    pub fn is_empty(&self) -> bool
        ensures { IsTrue result ↔ (self.now ≡ []) }
    {
        self.frames.is_empty() && self.control.is_empty()
    }

    /// How many data words and control words there are.
    pub fn counts(&self) -> Counts
        ensures frames { result.frames ≡ length (filter is_data self.now) }
        ensures control { result.control ≡ length (filter is_control self.now) }
    {
        Counts {
            frames: self.frames.len() as u64,
            control: self.control.len() as u64,
        }
    }
}
