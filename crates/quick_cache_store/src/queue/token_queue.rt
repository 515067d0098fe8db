//! A queue of tokens.
ghost use Rattle.std.specs.Prelude.{◌≡◌, ◌≢◌, ◌<◌, ◌≤◌, [], ◌∷◌, ◌++◌, length, take, drop, get_or, MatchOption, IfErr, OnOk, IsOk, true};
ghost use Rattle.std.specs.Prelude.{false};
ghost use Rattle.std.specs.Bool.{MatchBool};
ghost use Rattle.std.specs.VecDeque.{deque_len, deque_capacity};
ghost use Rattle.std.specs.Int.NonZero.{non_zero_u32_get as number};
ghost use Rattle.quick_cache_store.specs.Queues.{times, turned, tokens_at, BeginsWithToken, tokens_of, tokens_from, capacity_of, IsCounted};
ghost use Rattle.quick_cache_store.specs.Queues.{IsQueue, StandsAt, Leaves};

use crate::queue::numbers::Numbers;
use quick_cache_model::{Refusal, Token};
use std::alloc::{Allocator, Global};
use std::collections::VecDeque;
use std::mem::size_of;

/// Tokens in their order, of which the first is the next to be visited.
///
/// A token that leaves from the middle leaves its place empty. The queue closes up later, in one
/// pass, and seldom: taken together, each token that comes or leaves takes constant time.
#[derive(Drop)]
pub struct TokenQueue<A: Allocator = Global> {
    // The token at each place, and 0 at an empty one. The first place is never empty.
    places: VecDeque<u32, A>,
    // How many places are empty.
    empty: usize,
    // The number of the first place. The others are numbered from there on, and may wrap.
    first_number: u32,
}

/// The number of a place: it counts from that of the first, and may wrap.
#[inline(always)]
fn number_at(first_number: u32, place: usize) -> u32 {
    first_number.wrapping_add((place & 0xffff_ffff) as u32)
}

/// Brings the tokens of these places to the front, and answers how many they are. What stands
/// behind them is left over. It has no branch on what stands at a place.
fn gather<A: Allocator>(places: &mut [u32], numbers: &mut Numbers<A>, first_number: u32) -> usize
    ensures tokens { take result places.new ≡ tokens_at places.old }
    ensures within { result ≤ length places.old }
{
    let mut count = 0;
    for place in 0..places.len() {
        let token = places[place];
        places[count] = token;
        numbers.note(token, number_at(first_number, count));
        count += usize::from(token != 0);
    }
    count
}

impl<A: Allocator> TokenQueue<A> {
    /// A queue without tokens. It asks for no memory.
    pub fn new(alloc: A) -> Self
        ensures empty { tokens_of result ≡ [] }
        ensures sound { IsQueue result }
    {
        TokenQueue {
            places: VecDeque::new(alloc),
            empty: 0,
            first_number: 0,
        }
    }

    /// How many tokens there are.
    #[inline(always)]
    pub fn len(&self) -> usize
        requires { IsQueue self.now }
        ensures { result ≡ length (tokens_of self.now) }
    {
        self.places.len() - self.empty
    }

    /// How many tokens it can have with no allocation.
    #[inline(always)]
    pub fn capacity(&self) -> usize
        ensures { result ≡ capacity_of self.now }
    {
        let places = self.places.capacity();
        places - places / 5
    }

    /// The bytes of the places, with those of the room.
    pub(crate) fn memory_used(&self) -> usize {
        self.places.capacity().saturating_mul(size_of::<u32>())
    }

    /// Makes room for so many tokens in all. A refusal is for want of memory, and changes nothing
    /// but the room.
    pub fn reserve(&mut self, tokens: usize) -> Result<(), Refusal>
        requires { IsQueue self.old }
        ensures kept { tokens_of self.new ≡ tokens_of self.old }
        ensures sound { IsQueue self.new }
        ensures room { OnOk result (tokens ≤ capacity_of self.new) }
        ensures grows { capacity_of self.old ≤ capacity_of self.new }
        ensures had_room { tokens ≤ capacity_of self.old → IsOk result × (self.new ≡ self.old) }
        ensures memory { IfErr result (λ refused. refused ≡ Refusal.Memory) }
    {
        if tokens <= self.capacity() {
            return Ok(());
        }
        // A quarter more places than tokens: so a full queue that loses and gains one token again
        // and again closes up seldom, and never for a few places.
        let places = tokens.saturating_add(tokens / 4).saturating_add(1);
        let more = places.saturating_sub(self.places.len());
        match self.places.reserve_exact(more) {
            Ok(()) => Ok(()),
            Err(_) => Err(Refusal::Memory),
        }
    }

    /// The token that is visited next.
    #[inline(always)]
    pub fn first(&self) -> Option<Token>
        requires { IsQueue self.now }
        ensures { MatchOption result
            (tokens_of self.now ≡ [])
            (λ token. StandsAt (tokens_of self.now) 0 (number token)) }
    {
        match self.places.front() {
            Some(place) => Token::new(*place),
            None => None,
        }
    }

    /// The first token that stands at this place or farther behind, and the place behind it.
    #[inline(always)]
    pub fn first_from(&self, from: usize) -> Option<(Token, usize)>
        ensures { MatchOption result
            (tokens_from self.now from ≡ [])
            (λ found. tokens_from self.now from
            ≡ number found.0 ∷ tokens_from self.now found.1) }
    {
        let mut place = from;
        while place < self.places.len() {
            if let Some(token) = Token::new(self.places[place]) {
                return Some((token, place + 1));
            }
            place += 1;
        }
        None
    }

    /// Puts a token last. It takes no memory.
    #[inline(always)]
    pub fn push_last(&mut self, numbers: &mut Numbers<A>, token: Token)
        requires sound { IsQueue self.old }
        requires room { length (tokens_of self.old) < capacity_of self.old }
        ensures tokens { tokens_of self.new ≡ tokens_of self.old ++ number token ∷ [] }
        ensures sound { IsQueue self.new }
        ensures capacity { capacity_of self.new ≡ capacity_of self.old }
    {
        self.make_place(numbers);
        self.add_place(numbers, token.get());
    }

    /// Puts the first token last.
    #[inline(always)]
    pub fn turn(&mut self, numbers: &mut Numbers<A>)
        requires { IsQueue self.old }
        ensures tokens { tokens_of self.new ≡ turned (tokens_of self.old) }
        ensures sound { IsQueue self.new }
        ensures capacity { capacity_of self.new ≡ capacity_of self.old }
    {
        self.turn_place(numbers);
        self.drop_empty();
    }

    /// Takes the first token out, if there is one: the others keep their order.
    #[inline(always)]
    pub fn leave_first(&mut self)
        requires { IsQueue self.old }
        ensures tokens { tokens_of self.new ≡ drop 1 (tokens_of self.old) }
        ensures sound { IsQueue self.new }
        ensures capacity { capacity_of self.new ≡ capacity_of self.old }
    {
        self.drop_place();
        self.drop_empty();
    }

    /// Takes a token out: the others keep their order.
    #[inline(always)]
    pub fn leave(&mut self, numbers: &mut Numbers<A>, token: Token)
        requires sound { IsQueue self.old }
        requires stands { 0 < times (number token) (tokens_of self.old) }
        ensures leaves { Leaves false (tokens_of self.old) (number token) (tokens_of self.new) }
        ensures sound { IsQueue self.new }
        ensures capacity { capacity_of self.new ≡ capacity_of self.old }
    {
        let place = self.place(numbers, token);
        if place == 0 {
            self.leave_first();
            return;
        }
        self.places[place] = 0;
        self.empty += 1;
        // Else a walk over a few tokens could pass many empty places.
        if self.empty > self.places.len() - self.empty {
            self.close_up(numbers);
        }
    }

    /// Takes a token out. The queue begins behind it, and what stood before it comes last.
    pub fn restart(&mut self, numbers: &mut Numbers<A>, token: Token)
        requires sound { IsQueue self.old }
        requires stands { 0 < times (number token) (tokens_of self.old) }
        ensures leaves { Leaves true (tokens_of self.old) (number token) (tokens_of self.new) }
        ensures sound { IsQueue self.new }
        ensures capacity { capacity_of self.new ≡ capacity_of self.old }
    {
        let place = self.place(numbers, token);
        self.turn_places(numbers, place);
        self.drop_place();
        self.drop_empty();
    }

    /// Puts these tokens, in their order, into a queue that has none and has room for them.
    pub fn copy_to(&self, copy: &mut TokenQueue<A>, numbers: &mut Numbers<A>)
        requires sound { IsQueue copy.old }
        requires empty { tokens_of copy.old ≡ [] }
        requires room { length (tokens_of self.now) ≤ capacity_of copy.old }
        ensures copies { tokens_of copy.new ≡ tokens_of self.now }
        ensures copy_sound { IsQueue copy.new }
        ensures capacity { capacity_of copy.new ≡ capacity_of copy.old }
    {
        let mut place = 0;
        while let Some((token, behind)) = self.first_from(place) {
            copy.push_last(numbers, token);
            place = behind;
        }
    }

    /// Takes all tokens out, and keeps the room.
    pub fn clear(&mut self)
        ensures empty { tokens_of self.new ≡ [] }
        ensures sound { IsQueue self.new }
        ensures capacity { capacity_of self.new ≡ capacity_of self.old }
    {
        self.places.clear();
        self.empty = 0;
    }

    // Closes up where there is no room for a place behind the last.
    #[inline(always)]
    fn make_place(&mut self, numbers: &mut Numbers<A>)
        requires sound { IsQueue self.old }
        requires room { length (tokens_of self.old) < capacity_of self.old }
        ensures tokens { tokens_of self.new ≡ tokens_of self.old }
        ensures sound { IsQueue self.new }
        ensures place { deque_len self.new.places < deque_capacity self.new.places }
        ensures capacity { deque_capacity self.new.places ≡ deque_capacity self.old.places }
    {
        if self.places.len() == self.places.capacity() {
            self.close_up(numbers);
        }
    }

    // Takes the empty places out: what is left is the tokens.
    #[cold]
    fn close_up(&mut self, numbers: &mut Numbers<A>)
        ensures closed { length self.new.places.items ≡ length (tokens_of self.old) }
        ensures tokens { tokens_of self.new ≡ tokens_of self.old }
        ensures sound { IsQueue self.new }
        ensures capacity { deque_capacity self.new.places ≡ deque_capacity self.old.places }
    {
        let first_number = self.first_number;
        let count = gather(self.places.make_contiguous(), numbers, first_number);
        self.places.truncate(count);
        self.empty = 0;
    }

    // Puts the first so many places last, empty or not.
    fn turn_places(&mut self, numbers: &mut Numbers<A>, count: usize)
        requires { count ≤ length self.old.places.items }
        ensures places { self.new.places.items
            ≡ drop count self.old.places.items ++ take count self.old.places.items }
        ensures empty { self.new.empty ≡ self.old.empty }
        ensures capacity { deque_capacity self.new.places ≡ deque_capacity self.old.places }
    {
        for _ in 0..count {
            self.turn_place(numbers);
        }
    }

    // Puts the first place last, empty or not.
    #[inline(always)]
    fn turn_place(&mut self, numbers: &mut Numbers<A>)
        ensures places { self.new.places.items
            ≡ drop 1 self.old.places.items ++ take 1 self.old.places.items }
        ensures empty { self.new.empty ≡ self.old.empty }
        ensures capacity { deque_capacity self.new.places ≡ deque_capacity self.old.places }
    {
        let Some(place) = self.places.pop_front() else {
            return;
        };
        self.first_number = self.first_number.wrapping_add(1);
        self.add_place(numbers, place);
    }

    // Adds a last place with that token, or an empty one.
    #[inline(always)]
    fn add_place(&mut self, numbers: &mut Numbers<A>, place: u32)
        requires { deque_len self.old.places < deque_capacity self.old.places }
        ensures places { self.new.places.items ≡ self.old.places.items ++ place ∷ [] }
        ensures empty { self.new.empty ≡ self.old.empty }
        ensures capacity { deque_capacity self.new.places ≡ deque_capacity self.old.places }
    {
        numbers.note(place, number_at(self.first_number, self.places.len()));
        self.places.push_back_reserved(place);
    }

    // Takes the first place out.
    #[inline(always)]
    fn drop_place(&mut self)
        ensures places { self.new.places.items ≡ drop 1 self.old.places.items }
        ensures empty { self.new.empty ≡ self.old.empty }
        ensures capacity { deque_capacity self.new.places ≡ deque_capacity self.old.places }
    {
        let _ = self.places.pop_front();
        self.first_number = self.first_number.wrapping_add(1);
    }

    // Takes out the places before the first token.
    #[inline(always)]
    fn drop_empty(&mut self)
        requires { IsCounted self.old }
        ensures tokens { tokens_of self.new ≡ tokens_of self.old }
        ensures sound { IsQueue self.new }
        ensures capacity { deque_capacity self.new.places ≡ deque_capacity self.old.places }
    {
        // Mostly there is none to be looked for.
        if self.empty == 0 {
            return;
        }
        while self.begins_empty() {
            self.drop_place();
            self.empty -= 1;
        }
    }

    // Whether the first place is empty.
    #[inline(always)]
    fn begins_empty(&self) -> bool
        ensures { MatchBool result
            (self.now.places.items ≡ 0 ∷ drop 1 self.now.places.items)
            (BeginsWithToken self.now.places.items) }
    {
        match self.places.front() {
            Some(place) => *place == 0,
            None => false,
        }
    }

    // The place at which a token stands.
    #[inline(always)]
    fn place(&self, numbers: &Numbers<A>, token: Token) -> usize
        requires { 0 < times (number token) (tokens_of self.now) }
        ensures { StandsAt self.now.places.items result (number token) }
    {
        // Mostly it is the first.
        if self.has_at(0, token) {
            return 0;
        }
        let likely = numbers.of(token).wrapping_sub(self.first_number) as usize;
        if self.has_at(likely, token) {
            return likely;
        }
        self.seek(token)
    }

    // The same by a look at each place.
    #[cold]
    fn seek(&self, token: Token) -> usize
        requires { 0 < times (number token) (tokens_of self.now) }
        ensures { StandsAt self.now.places.items result (number token) }
    {
        let mut place = 0;
        while place < self.places.len() {
            if self.has_at(place, token) {
                return place;
            }
            place += 1;
        }
        unreachable!()
    }

    // Whether a token stands at that place.
    #[inline(always)]
    fn has_at(&self, place: usize, token: Token) -> bool
        ensures { MatchBool result
            (StandsAt self.now.places.items place (number token))
            (get_or self.now.places.items place 0 ≢ number token) }
    {
        match self.places.get(place) {
            Some(here) => *here == token.get(),
            None => false,
        }
    }
}
