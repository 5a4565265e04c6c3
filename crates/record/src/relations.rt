//! How two records relate. Tags ascend, so two records' tags are gone through together, once.

ghost use Rattle.std.specs.Prelude.{◌≡◌, true, ◌-◌, ltb};
ghost use Rattle.octets.specs.Lesser.{lesser_of};
ghost use Rattle.record.specs.Fields.{tag_at, tag_count, tags};
ghost use Rattle.record.specs.Relations as R;

use crate::Record;

impl<'a> Record<'a> {
    /// Whether the messages are the same, their lengths included.
    pub fn has_message_of(self, other: Record<'a>) -> bool
        ensures { result ≡ R.same_message self.entry.bytes.now other.entry.bytes.now }
    {
        octets::order::equal(self.message(), other.message())
    }

    // Whether this has fewer tags than the other.
    fn has_fewer_tags_than(self, other: Record<'a>) -> bool
        ensures { result ≡ ltb (tag_count self.entry.bytes.now) (tag_count other.entry.bytes.now) }
    {
        self.tag_count() < other.tag_count()
    }

    /// Whether this is a subset of the other: the same message, fewer tags, and all of them the other's.
    #[tactic(auto, unfolding(crate::specs::Relations::subset))]
    pub fn is_subset_of(self, other: Record<'a>) -> bool
        ensures { result ≡ R.subset self.entry.bytes.now other.entry.bytes.now }
    {
        self.has_fewer_tags_than(other) && self.has_message_of(other) && contained(self, other)
    }

    /// Whether the two are tied: message and at least one tag are common.
    #[tactic(auto, unfolding(crate::specs::Relations::tied))]
    pub fn is_tied_to(self, other: Record<'a>) -> bool
        ensures { result ≡ R.tied self.entry.bytes.now other.entry.bytes.now }
    {
        self.has_message_of(other) && shares_tag(self, other)
    }
}

/// Of two records the one whose bytes come first; the first where they are equal.
pub fn lesser<'a>(a: Record<'a>, b: Record<'a>) -> Record<'a>
    ensures { result.bytes.now ≡ lesser_of a.entry.bytes.now b.entry.bytes.now }
{
    if octets::order::precedes(b.bytes, a.bytes) {
        b
    } else {
        a
    }
}

/// Whether every tag of a is one of b's.
pub fn contained(a: Record, b: Record) -> bool
    ensures { result ≡ R.all_in (tags a.entry.bytes.now) (tags b.entry.bytes.now) }
{
    let n = a.tag_count();
    let m = b.tag_count();
    let mut i = 0;
    let mut j = 0;
    while i < n {
        if m <= j {
            return false;
        }
        let x = a.tag(i);
        let y = b.tag(j);
        if x < y {
            return false;
        }
        j += 1;
        if y < x {
            continue;
        }
        i += 1;
    }
    true
}

// Whether the last tag of a comes before the first of b: then, since tags ascend, every tag of a is below every tag of b.
fn ends_before(a: Record, b: Record) -> bool
    ensures { result ≡ ltb (tag_at a.entry.bytes.now (tag_count a.entry.bytes.now - 1)) (tag_at b.entry.bytes.now 0) }
{
    a.tag(a.tag_count() - 1) < b.tag(0)
}

// Whether some tag of a is one of b's: both are gone through.
fn common_tag(a: Record, b: Record) -> bool
    ensures { result ≡ R.shares_tag a.entry.bytes.now b.entry.bytes.now }
{
    let n = a.tag_count();
    let m = b.tag_count();
    let mut i = 0;
    let mut j = 0;
    while i < n {
        if m <= j {
            return false;
        }
        let x = a.tag(i);
        let y = b.tag(j);
        if x < y {
            i += 1;
            continue;
        }
        if y < x {
            j += 1;
            continue;
        }
        return true;
    }
    false
}

// Whether some tag of a is one of b's. Where the tags of one record all lie below those of the other, two comparisons tell.
fn shares_tag(a: Record, b: Record) -> bool
    ensures { result ≡ R.shares_tag a.entry.bytes.now b.entry.bytes.now }
{
    if ends_before(a, b) {
        return false;
    }
    if ends_before(b, a) {
        return false;
    }
    common_tag(a, b)
}
