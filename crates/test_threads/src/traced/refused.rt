//! Calls of a traced cache whose growths are refused in turn: they are not made, and not counted.
ghost use Rattle.std.specs.Prelude.{◌≡◌};

use quick_cache::sync::{PARTS, Seat, TraceCall, Traced};
use quick_cache::unsync::{DefaultLifecycle, Reply};
use quick_cache::{DefaultHashBuilder, OptionsBuilder, Refusal, UnitWeighter};
use std::alloc::{AllocError, Global};
use std::marker::Brand;
use std::sync::Wait;
use std::sync::ledger::{Blank, Ledger};
use std::test::Fail;
use test_tools::{Rationed, expect_ok};

/// A text whose clones can be refused.
type Text<'a> = String<&'a Rationed<Global>>;

/// A traced cache of such texts, whose growths can be refused.
type Texts<'a, G> = Traced<
    u64,
    Text<'a>,
    UnitWeighter,
    DefaultHashBuilder,
    DefaultLifecycle<u64, Text<'a>>,
    G,
    &'a Rationed<Global>,
>;

/// A call and its reply.
type Entry<'a> = (
    TraceCall<u64, Text<'a>>,
    Reply<u64, Text<'a>, &'a Rationed<Global>>,
);

/// A kind of call.
#[derive(Debug, Clone, Copy, PartialEq, Eq)]
enum Kind {
    Insert,
    Get,
    Remove,
}

/// A cache for five texts.
fn texts<'a, G: Ledger>(
    ration: &'a Rationed<Global>,
    blank: Blank,
) -> Result<(Texts<'a, G>, Seat<G>), Fail>
    requires name { blank.name ≡ G.name }
    requires parts { blank.parts ≡ G.parts }
    requires all { G.parts ≡ PARTS }
{
    let mut options = OptionsBuilder::new();
    options.estimated_items_capacity(5).weight_capacity(5);
    let options = options.build()?;
    let lifecycle = DefaultLifecycle::new();
    let builder = DefaultHashBuilder::new();
    match Traced::new(ration, blank, options, UnitWeighter, builder, lifecycle) {
        Ok(made) => Ok(made),
        Err(_) => Err(Fail::new("there is memory")),
    }
}

/// Makes a call of a kind under key 1, an insert with this text.
fn make<'a, G: Ledger, R: Wait>(
    rt: &R,
    texts: &Texts<'a, G>,
    seat: &mut Seat<G>,
    kind: Kind,
    text: Text<'a>,
) -> Result<(), Refusal> {
    if kind == Kind::Insert {
        return texts
            .insert(rt, seat, 1, text)
            .map_err(|(_, _, refusal)| refusal);
    }
    if kind == Kind::Get {
        texts.get(rt, seat, &1)?;
        return Ok(());
    }
    texts.remove(rt, seat, &1)?;
    Ok(())
}

/// Four calls, which fill the list: an insert, but where an insert is to come, and look-ups of a key
/// that is not there.
fn begin<'a, G: Ledger, R: Wait>(
    rt: &R,
    texts: &Texts<'a, G>,
    seat: &mut Seat<G>,
    kind: Kind,
    text: Text<'a>,
) -> Result<(), Refusal> {
    match kind {
        Kind::Insert => drop(texts.get(rt, seat, &2)?),
        _ => make(rt, texts, seat, Kind::Insert, text)?,
    }
    for _ in 0..3 {
        texts.get(rt, seat, &2)?;
    }
    Ok(())
}

/// What a call was and what came of it, as a number: its kind and its outcome, and its key.
fn told(entry: &Entry<'_>) -> u64 {
    match entry {
        (TraceCall::Insert(key, _), Reply::Done) => key.saturating_add(10),
        (TraceCall::Get(key), Reply::Value(Some(_))) => key.saturating_add(20),
        (TraceCall::Get(key), Reply::Value(None)) => key.saturating_add(30),
        (TraceCall::Remove(key), Reply::Pair(Some(_))) => key.saturating_add(40),
        _ => 0,
    }
}

/// The list of a cache with this seat, each entry as a number.
fn list_of<G: Ledger>(
    alloc: Global,
    texts: Texts<'_, G>,
    seat: Seat<G>,
) -> Result<Vec<u64>, AllocError>
    requires { G.parts ≡ PARTS }
{
    let mut numbers = Vec::new(alloc);
    let mut seats: Vec<Seat<G>> = Vec::new(alloc);
    seats.push(seat)?;
    if let Ok(entries) = texts.gather(seats) {
        for entry in &entries {
            numbers.push(told(entry))?;
        }
    }
    Ok(numbers)
}

/// Four calls, then one of a kind with memory for so many blocks, and a look-up of its key. It tells
/// whether the one was made, and what stands in the list.
fn with_blocks<G: Ledger, R: Wait>(
    rt: &R,
    alloc: Global,
    blank: Blank,
    kind: Kind,
    blocks: u64,
) -> Result<(bool, Vec<u64>), Fail>
    requires name { blank.name ≡ G.name }
    requires parts { blank.parts ≡ G.parts }
    requires all { G.parts ≡ PARTS }
{
    let ration = Rationed::new(alloc, 1000);
    let (texts, mut seat) = texts::<G>(&ration, blank)?;
    begin(
        rt,
        &texts,
        &mut seat,
        kind,
        String::from_str(&ration, "one")?,
    )?;
    let text = String::from_str(&ration, "one")?;
    ration.allow(blocks);
    let made = make(rt, &texts, &mut seat, kind, text).is_ok();
    ration.allow(1000);
    texts.get(rt, &mut seat, &1)?;
    Ok((made, list_of(alloc, texts, seat)?))
}

#[test]
fn a_refused_call_changes_neither_cache_nor_list(rt: HostRuntime) -> Result<(), Fail> {
    let rows = [
        (
            Kind::Insert,
            [32, 32, 32, 32, 31, 0],
            [32, 32, 32, 32, 11, 21],
        ),
        (Kind::Get, [11, 32, 32, 32, 21, 0], [11, 32, 32, 32, 21, 21]),
        (
            Kind::Remove,
            [11, 32, 32, 32, 21, 0],
            [11, 32, 32, 32, 41, 31],
        ),
    ];
    for (kind, unmade, all) in rows {
        let mut refused = 0u64;
        for blocks in 0..20 {
            let blank = Blank::new(PARTS);
            let (made, list) = with_blocks::<Brand, _>(&rt, rt.alloc(), blank, kind, blocks)?;
            let wanted: &[u64] = if made { &all } else { &unmade[..5] };
            assert!(rt; list.as_slice() == wanted, "{kind:?} with {blocks} blocks");
            refused = refused.saturating_add(u64::from(!made));
        }
        expect_ok!(rt; println!(rt; "{kind:?} was refused {refused} times"));
        assert!(rt; refused > 1 && refused < 20, "{kind:?}");
    }
    Ok(())
}
