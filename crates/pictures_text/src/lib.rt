//! All small pictures: each case of three fixes of one message, whose tags are out of 1, 2 and 3 and whose covariances are zeros or the identity,
//! with what is decided of it, a line each. The text grows on the heap.
#![tactic(auto)]

ghost use Rattle.std.specs.Prelude.{◌≡◌, ℕ, ◌+◌, ◌-◌, ◌^◌, ◌/◌, ◌≤◌, ◌<◌, false, ◌++◌, length, map, IfOk, OnOk};
ghost use Rattle.text.specs.Numbers.{decimal};
ghost use Rattle.text.specs.Texts.{append};
ghost use Rattle.decision.specs.Answer.{is_bad, outcome};
ghost use Rattle.decision.specs.Answered.{Says};
ghost use Rattle.decision_items.specs.Layout.{item_size};
ghost use Rattle.arithmetic.specs.declared.standing.ChiSquare.{ChiSquare};
ghost use Rattle.decision_rule.specs.Outcome.{Outcome};
ghost use Rattle.pictures_text.specs.Cases.{IsCase};
ghost use Rattle.pictures_text.specs.Numbered.{case_at};
ghost use Rattle.pictures_text.specs.Items as I;
ghost use Rattle.pictures_text.specs.Lines as L;

use arrayvec::ArrayVec;
use decision::{Decision, Items, LEAST, Refusal, decide_least};
use decision_items::layout::{HASH_SIZE, ITEM_SIZE};
use itoa::Buffer;
use record::Fields;
use record::layout::{COVARIANCE_NUMBERS, MAX_TAGS, MESSAGE_ROOM};
use std::alloc::{AllocError, Global};
use text::Text;

pub mod claims;

// How many cases there are: seven sets of tags for each fix, and two covariances.
const CASES: u16 = 7 * 7 * 7 * 2 * 2 * 2;

// The bits of 1.0.
const ONE: u64 = 0x3ff0_0000_0000_0000;

const ITEMS_SIZE: usize = 3 * ITEM_SIZE;

/// One of the three fixes: its tags, as a mask whose bit 0 stands for tag 1, and whether its covariance is the identity, or else zeros.
#[derive(Clone, Copy)]
pub struct Member {
    pub tags: u8,
    pub unit: bool,
}

/// A case: its fixes in the order of their numbers.
#[derive(Clone, Copy)]
pub struct Case {
    pub first: Member,
    pub second: Member,
    pub third: Member,
}

// The case that has so many before it.
fn case_at(before: u16) -> Case
    requires { before < 2744 }
    ensures { result ≡ case_at before }
{
    let second = before % 392;
    let third = second % 56;
    let covariances = third % 8;
    Case {
        first: Member {
            tags: (1 + before / 392) as u8,
            unit: covariances / 4 == 1,
        },
        second: Member {
            tags: (1 + second / 56) as u8,
            unit: covariances % 4 / 2 == 1,
        },
        third: Member {
            tags: (1 + third / 8) as u8,
            unit: covariances % 4 % 2 == 1,
        },
    }
}

// Appends a tag if the mask has it.
fn add_tag(tags: &mut ArrayVec<u64, MAX_TAGS>, mask: u8, tag: u8)
    requires { (1 ≤ tag) × ((tag ≤ 3) × (length tags.old.items < 3)) }
    ensures { tags.new.items ≡ tags.old.items ++ I.tag_in mask tag }
{
    if octets::masks::has_u32(mask as u32, tag as u32 - 1) {
        tags.push(tag as u64);
    }
}

// The tags of a mask, which ascend.
#[tactic(auto, unfolding(crate::specs::Items::tags_of))]
fn tags_of(mask: u8) -> ArrayVec<u64, MAX_TAGS>
    ensures tags { result.items ≡ I.tags_of mask }
    ensures few { length result.items ≤ 3 }
{
    let mut tags = ArrayVec::new();
    add_tag(&mut tags, mask, 1);
    add_tag(&mut tags, mask, 2);
    add_tag(&mut tags, mask, 3);
    tags
}

// The mask of the first n tags.
fn first_tags(n: usize) -> u32
    requires { n < 32 }
    ensures { result ≡ 2 ^ n - 1 }
{
    (1 << n) - 1
}

fn covariance_of(unit: bool) -> [u64; COVARIANCE_NUMBERS]
    ensures { result ≡ I.covariance_of unit }
{
    if unit {
        [ONE, 0, 0, ONE, 0, ONE]
    } else {
        [0; COVARIANCE_NUMBERS]
    }
}

// What the record of a fix says.
fn fields_of(member: Member) -> Fields
    ensures { result ≡ I.said_of member }
{
    let tags = tags_of(member.tags);
    let used = first_tags(tags.len());
    Fields {
        time: 0,
        latitude: 0,
        longitude: 0,
        height: Some(0),
        message: ArrayVec::from([0; MESSAGE_ROOM]),
        tags,
        used,
        models: ArrayVec::new(),
        spec: 0,
        covariance: covariance_of(member.unit),
    }
}

// An item: the fix of this number.
fn push_item(out: &mut Text, member: Member, number: u8)
    ensures { out.new ≡ append out.old (I.item_of member number) }
{
    out.push_bytes(&fields_of(member).bytes());
    out.push_bytes(&[0; HASH_SIZE]);
    out.push_bytes(&[0; HASH_SIZE - 1]);
    out.push_byte(number);
    out.push_bytes(&[0; 8]);
    out.push_bytes(&[1, 0, 0]);
}

fn push_items(out: &mut Text, case: Case)
    ensures { out.new ≡ append out.old (I.items_of case) }
{
    push_item(out, case.first, 1);
    push_item(out, case.second, 2);
    push_item(out, case.third, 3);
}

fn write_items(bytes: &mut [u8], case: Case)
    requires { length bytes.old ≡ ITEMS_SIZE }
    ensures { bytes.new ≡ I.items_of case }
{
    let mut out = Text::new(bytes);
    push_items(&mut out, case);
}

// What is decided of one to four items in bytes.
#[inline(never)]
fn decided(bytes: &[u8]) -> Decision<LEAST>
    requires good { is_bad bytes.now ≡ false }
    requires few { (0 < length bytes.now / item_size) × (length bytes.now / item_size ≤ LEAST) }
    ensures { Says result (outcome bytes.now) }
{
    let Some(items) = Items::parse(bytes) else {
        unreachable!()
    };
    decide_least(items.len(), |i| items.get(i))
}

// A number in decimal.
fn push_number(out: &mut Vec<u8>, n: u64) -> Result<(), AllocError>
    ensures { OnOk result (out.new.items ≡ out.old.items ++ decimal n) }
{
    out.extend_from_slice(Buffer::new().format(n).as_bytes())
}

// The number of the fix at a place.
fn push_place(out: &mut Vec<u8>, place: u8) -> Result<(), AllocError>
    ensures { OnOk result (out.new.items ≡ out.old.items ++ decimal (place + 1)) }
{
    push_number(out, place as u64 + 1)
}

// A comma, and the number of the fix at a place.
#[tactic(auto, unfolding(octets::specs::Ascii::ascii))]
fn push_another(out: &mut Vec<u8>, place: u8) -> Result<(), AllocError>
    ensures { OnOk result (out.new.items ≡ out.old.items ++ L.another place) }
{
    out.extend_from_slice(b",")?;
    push_place(out, place)
}

// The numbers of the fixes at these places, with commas, or `none`.
fn push_list(out: &mut Vec<u8>, places: &[u8]) -> Result<(), AllocError>
    ensures { OnOk result (out.new.items ≡ out.old.items ++ L.numbers places.now) }
{
    let [first, rest @ ..] = places else {
        return out.extend_from_slice(b"none");
    };
    push_place(out, *first)?;
    for place in rest {
        push_another(out, *place)?;
    }
    Ok(())
}

// A key, and the list that it has.
fn push_field(out: &mut Vec<u8>, key: &str, places: &[u8]) -> Result<(), AllocError>
    ensures { OnOk result (out.new.items ≡ out.old.items ++ (key.now ++ L.numbers places.now)) }
{
    out.extend_from_slice(key.as_bytes())?;
    push_list(out, places)
}

// The places of the refused.
fn refused(alloc: Global, refusals: &[Refusal]) -> Result<ArrayVec<u8, LEAST>, AllocError>
    ensures { IfOk result (λ v. v.items ≡ map (λ x. x.refused) refusals.now) }
{
    refusals.iter().map(|x| x.refused).collect(alloc)
}

// The line of a case of this number, of which this is decided.
fn push_decided(
    alloc: Global,
    out: &mut Vec<u8>,
    number: u16,
    decision: &Decision<LEAST>,
) -> Result<(), AllocError>
    ensures { (o : Outcome ℕ ChiSquare) → Says decision.now o → OnOk result (out.new.items ≡ out.old.items ++ L.line_of number o) }
{
    out.extend_from_slice(b"case=")?;
    push_number(out, number as u64)?;
    push_field(out, " ranked=", &decision.ranked)?;
    push_field(out, " dominated=", &decision.dominated)?;
    push_field(out, " refused=", &refused(alloc, &decision.refusals)?)?;
    out.extend_from_slice(b"\n")
}

// The line of a case.
fn push_line(alloc: Global, out: &mut Vec<u8>, number: u16, case: Case) -> Result<(), AllocError>
    requires { IsCase case }
    ensures { OnOk result (out.new.items ≡ out.old.items ++ L.line_of number (outcome (I.items_of case))) }
{
    let mut items = [0; ITEMS_SIZE];
    write_items(&mut items, case);
    push_decided(alloc, out, number, &decided(&items))
}

/// The line of every case, in their order.
pub fn pictures(alloc: Global) -> Result<Vec<u8>, AllocError>
    ensures { IfOk result (λ v. v.items ≡ L.pictures) }
{
    let mut text = Vec::new(alloc);
    for k in 0..CASES {
        push_line(alloc, &mut text, k + 1, case_at(k))?;
    }
    Ok(text)
}
