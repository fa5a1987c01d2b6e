// Sets of calls.

ghost use Rattle.std.specs.Prelude.{◌≡◌, ◌<◌, ◌≤◌, ◌+◌, ◌==◌, [], drop, slice_get, length, IfSome, IfNone};
ghost use Rattle.group_spec.specs.Hands.{with_call, with_calls, has_call, has_from, calls_from, calls_not_from, calls_of_bits, mask_of, HasWord, IsBlankBefore, IsLowestBit, IsInOrder};

use crate::calls::Call;
use std::marker::Model;

/// A set of calls: a word for each floor, in which bit `to - 1` is the call to `to`. Contracts see
/// its members in the order of (from, to). No call of it takes memory.
#[derive(Clone, Copy)]
pub struct Hand {
    words: [u16; 16],
}

impl Model for Hand {
    ghost use Rattle.std.specs.Prelude.{List};
    ghost use Rattle.group_spec.specs.declared.calls.Call.{Call};
    ghost use Rattle.group_spec.specs.Hands.{calls_of_words, words_of_calls, IsWords};
    ghost use Rattle.group_spec.specs.Words.{words_again};

    ghost Value = { List Call };

    ghost view = { λ h. calls_of_words h.words };

    ghost invariant = { λ h. IsWords h.words };

    ghost inverse = { λ calls. record { words = words_of_calls calls } };

    ghost inverse_ok = { λ h ok i. record { words = words_again h.words ok i } };
}

// The first word that is not 0, and the number of its lowest bit.
fn lowest_bit(words: &[u16]) -> Option<(usize, u8)>
    ensures found { IfSome result (λ at. IsLowestBit words.now at.0 at.1) }
    ensures blank { IfNone result (IsBlankBefore words.now (length words.now)) }
{
    for (index, word) in words.iter().enumerate() {
        if *word != 0 {
            return Some((index, word.trailing_zeros() as u8));
        }
    }
    None
}

// The call of a bit.
fn call_of(index: usize, bit: u8) -> Call
    requires { (index < 16) × (bit < 16) }
    ensures from { result.from ≡ index + 1 }
    ensures to { result.to ≡ bit + 1 }
{
    Call {
        from: index as u8 + 1,
        to: bit + 1,
    }
}

impl Default for Hand {
    fn default() -> Hand
        ensures { result ≡ [] }
    {
        Hand::new()
    }
}

impl Hand {
    /// No call.
    pub fn new() -> Hand
        ensures { result ≡ [] }
    {
        Hand { words: [0; 16] }
    }

    /// How many calls there are, at most 256.
    pub fn len(&self) -> usize
        ensures count { result ≡ length self.now }
        ensures fits { length self.now ≤ 256 }
    {
        let mut rest = Hand { words: self.words };
        let mut count = 0;
        'calls: while rest.take_first().is_some() {
            count += 1;
        }
        count
    }

    /// Whether there is no call.
    pub fn is_empty(&self) -> bool
        ensures { result ≡ (length self.now == 0) }
    {
        self.first().is_none()
    }

    /// The members are in the order of (from, to), each once.
    pub fn in_order(&self)
        ensures { IsInOrder self.now }
    {
        let _words = self.words;
    }

    /// Adds a call; one that is there stays.
    pub fn insert(&mut self, call: Call)
        requires from { HasWord call.from }
        requires to { HasWord call.to }
        ensures { self.new ≡ with_call self.old call }
    {
        self.words[usize::from(call.from - 1)] |= 1 << (call.to - 1);
    }

    /// Whether the call is a member.
    pub fn has(&self, call: Call) -> bool
        requires from { HasWord call.from }
        requires to { HasWord call.to }
        ensures { result ≡ has_call self.now call }
    {
        (self.words[usize::from(call.from - 1)] >> (call.to - 1)) & 1 == 1
    }

    /// Whether a call from this floor is a member.
    pub fn has_from(&self, floor: u8) -> bool
        requires { HasWord floor }
        ensures { result ≡ has_from self.now floor }
    {
        self.mask_from(floor) != 0
    }

    /// The members from this floor, floor `to` of each as bit `to - 1`.
    pub fn mask_from(&self, floor: u8) -> u16
        requires { HasWord floor }
        ensures { result ≡ mask_of (calls_from floor self.now) }
    {
        self.words[usize::from(floor - 1)]
    }

    /// Adds the calls from a floor, floor `to` where bit `to - 1` of the mask is set.
    pub fn insert_from(&mut self, floor: u8, mask: u16)
        requires { HasWord floor }
        ensures { self.new ≡ with_calls self.old (calls_of_bits 16 floor 1 mask) }
    {
        let mut rest = mask;
        for to in 1..17 {
            if rest % 2 == 1 {
                self.insert(Call { from: floor, to });
            }
            rest /= 2;
        }
    }

    // Takes out the calls from a floor, and answers their bits.
    fn take_from(&mut self, floor: u8) -> u16
        requires { HasWord floor }
        ensures mask { result ≡ mask_of (calls_from floor self.old) }
        ensures bits { calls_of_bits 16 floor 1 result ≡ calls_from floor self.old }
        ensures rest { self.new ≡ calls_not_from floor self.old }
    {
        let index = usize::from(floor - 1);
        let mask = self.words[index];
        self.words[index] = 0;
        mask
    }

    /// Moves the calls from this floor to another set, and answers them, floor `to` of each as bit `to - 1`.
    pub fn move_from(&mut self, floor: u8, others: &mut Hand) -> u16
        requires { HasWord floor }
        ensures mask { result ≡ mask_of (calls_from floor self.old) }
        ensures rest { self.new ≡ calls_not_from floor self.old }
        ensures moved { others.new ≡ with_calls others.old (calls_from floor self.old) }
    {
        let mask = self.take_from(floor);
        others.insert_from(floor, mask);
        mask
    }

    /// The first call in the order of (from, to).
    pub fn first(&self) -> Option<Call>
        ensures value { result ≡ slice_get self.now 0 }
        ensures floors { IfSome result (λ call. HasWord call.from × HasWord call.to) }
    {
        let (index, bit) = lowest_bit(&self.words)?;
        Some(call_of(index, bit))
    }

    /// Takes out the first call in the order of (from, to).
    pub fn take_first(&mut self) -> Option<Call>
        ensures first { result ≡ slice_get self.old 0 }
        ensures floors { IfSome result (λ call. HasWord call.from × HasWord call.to) }
        ensures rest { self.new ≡ drop 1 self.old }
    {
        let (index, bit) = lowest_bit(&self.words)?;
        let call = call_of(index, bit);
        self.words[index] &= !(1 << bit);
        Some(call)
    }
}
