//! The links of a network: two directions for each extender.
ghost use Rattle.std.specs.Prelude.{◌≡◌, ◌↔◌, ℕ, ◌≤◌, ◌++◌, ◌∷◌, [], false, IfNone, IfOk, IfSome, OnOk, filter, slice_get};
ghost use Rattle.std.specs.Option.{option_copied};
ghost use Rattle.exb_link.specs.LinkFrames.{is_control, is_data, without_data, without_control};
ghost use Rattle.exb_model.specs.Tables.{at};
ghost use Rattle.exb_link.specs.Links.{words_of, IsNextBusy};
ghost use Rattle.exb_model.specs.DeviceSets.{number_in, IsNumber};

use crate::link::Link;
use crate::link_frame::BoxedFrame;
use exb_model::device_set::{first_in, has, meet, with_bit};
use exb_model::memory::NoMemory;
use exb_model::port::DEVICES;
use std::alloc::Global;
use std::marker::Model;

/// One direction of all links, by the number of the extender below.
pub struct Links {
    links: Vec<Link>,
    /// The extenders on whose links a word is.
    busy: u64,
}

impl Drop for Links {
    fn drop(self) {
        let Links { links: _, busy: _ } = self;
    }
}

impl Model for Links {
    ghost use Rattle.std.specs.Prelude.{List};
    ghost use Rattle.exb_link.specs.declared.link_frame.LinkFrame.{LinkFrame};
    ghost use Rattle.exb_link.specs.Links.{IsNoted};

    ghost Value = { List (List LinkFrame) };

    ghost view = { λ d. d.links.items };

    ghost invariant = { λ d. IsNoted d.links.items d.busy };
}

impl Links {
    /// Nothing is on any link.
    pub fn new(alloc: Global) -> Result<Links, NoMemory>
        ensures { IfOk result (λ made. words_of made ≡ λ n. []) }
    {
        let mut links = Vec::new(alloc);
        for _ in 0..DEVICES {
            links.push(Link::new(alloc))?;
        }
        Ok(Links { links, busy: 0 })
    }

    /// Puts a word behind all others on the link of an extender.
    #[inline(always)]
    pub fn push(&mut self, extender: u8, word: BoxedFrame) -> Result<(), NoMemory>
        requires { IsNumber extender }
        ensures { OnOk result (words_of self.new
            ≡ at extender (words_of self.old extender ++ word ∷ []) (words_of self.old)) }
    {
        let link = &mut self.links[extender as usize];
        match link.push(word) {
            Ok(()) => {
                self.busy = with_bit(self.busy, extender, true);
                Ok(())
            }
            Err(_) => Err(NoMemory),
        }
    }

    /// Takes the first data word out.
    #[inline(always)]
    pub fn take_data(&mut self, extender: u8) -> Option<BoxedFrame>
        requires { IsNumber extender }
        ensures word { result ≡ slice_get (filter is_data (words_of self.old extender)) 0 }
        ensures rest { words_of self.new ≡ at extender (without_data (words_of self.old extender))
            (words_of self.old) }
    {
        let link = &mut self.links[extender as usize];
        let word = link.take_data();
        let left = !link.is_empty();
        self.busy = with_bit(self.busy, extender, left);
        word
    }

    /// Takes the control word at a position out.
    #[inline(always)]
    pub fn take_control(&mut self, extender: u8, place: u64) -> Option<BoxedFrame>
        requires { IsNumber extender }
        ensures word { result ≡ slice_get (filter is_control (words_of self.old extender)) place }
        ensures rest { words_of self.new
            ≡ at extender (without_control (words_of self.old extender) place) (words_of self.old) }
    {
        let link = &mut self.links[extender as usize];
        let word = link.take_control(place);
        let left = !link.is_empty();
        self.busy = with_bit(self.busy, extender, left);
        word
    }

    /// The control word at a position.
    pub fn control_at(&self, extender: u8, place: u64) -> Option<&BoxedFrame>
        requires { IsNumber extender }
        ensures { option_copied result ≡ slice_get (filter is_control (words_of self.now extender))
            place }
    {
        self.links[extender as usize].control_at(place)
    }

    /// The link of an extender.
    #[inline(always)]
    pub fn link(&self, extender: u8) -> &Link
        requires { IsNumber extender }
        ensures { result.now ≡ words_of self.now extender }
    {
        &self.links[extender as usize]
    }

    /// Whether a word is on the link of an extender.
    #[inline(always)]
    pub fn has_word(&self, extender: u8) -> bool
        requires { IsNumber extender }
        ensures { (result ≡ false) ↔ (words_of self.now extender ≡ []) }
    {
        has(self.busy, extender)
    }

    /// The first link, by extender from a number on, that has a word.
    #[inline(always)]
    pub fn next_busy(&self, from: u8) -> Option<u8>
        requires { from ≤ 65 }
        ensures found { IfSome result (IsNextBusy self.now from) }
        ensures none { IfNone result ((n : ℕ) → from ≤ n → words_of self.now n ≡ []) }
    {
        first_in(self.busy, from)
    }

    /// Whether links of these extenders have a word.
    #[inline(always)]
    pub fn have_words(&self, among: u64) -> bool
        ensures { (result ≡ false) ↔ ((n : ℕ) → number_in among n ≡ 1 → words_of self.now n ≡ []) }
    {
        meet(self.busy, among)
    }
}
