// The tests of two records. Each takes them by value.
ghost use Rattle.std.specs.Prelude.{◌≡◌};
ghost use Rattle.shift.specs.Faults.{Comparable, share_tag, is_source, ends_before, is_too_low, out_of_order};
ghost use Rattle.shift.specs.Findings.{has_its_tag};

use crate::Record;

impl Record {
    // Whether this and y are writes that share a tag.
    #[tactic(auto, unfolding(crate::specs::Faults::share_tag))]
    pub(crate) fn shares_tag(self, y: Record) -> bool
        ensures { result ≡ share_tag self y }
    {
        self.kind.is_write() && y.kind.is_write() && self.tag == y.tag
    }

    // Whether this is a write, and y's tag and value are its.
    #[tactic(auto, unfolding(crate::specs::Faults::is_source))]
    pub(crate) fn is_source(self, y: Record) -> bool
        ensures { result ≡ is_source self y }
    {
        self.kind.is_write() && self.tag == y.tag && self.value == y.value
    }

    // Whether this one's end comes before y's begin.
    fn ends_before(self, y: Record) -> bool
        ensures { result ≡ ends_before self y }
    {
        self.end != 0 && self.end < y.begin
    }

    // Whether y, the later one, has a lower tag than this, or wrote and has none that is higher.
    fn is_too_low(self, y: Record) -> bool
        requires { Comparable self × Comparable y }
        ensures { result ≡ is_too_low self y }
    {
        self.tag.is_greater(y.tag) || y.kind.is_write() && !y.tag.is_greater(self.tag)
    }

    // Whether the later of the two has too low a tag.
    #[tactic(auto, unfolding(crate::specs::Faults::out_of_order))]
    pub(crate) fn is_out_of_order(self, y: Record) -> bool
        requires { Comparable self × Comparable y }
        ensures { result ≡ out_of_order self y }
    {
        self.ends_before(y) && self.is_too_low(y) || y.ends_before(self) && y.is_too_low(self)
    }

    // Whether this is a write of y's tag.
    #[tactic(auto, unfolding(crate::specs::Findings::has_its_tag))]
    pub(crate) fn has_its_tag(self, y: Record) -> bool
        ensures { result ≡ has_its_tag self y }
    {
        self.kind.is_write() && self.tag == y.tag
    }
}
