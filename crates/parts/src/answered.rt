// The set of nodes that have answered: one bit for each node of a byte.
ghost use Rattle.std.specs.Prelude.{◌≡◌, ◌<◌, ◌^◌};
ghost use Rattle.parts.specs.AnsweredSet.{member, insert, size, only_below};

use crate::NodeId;

// The set of node k alone. The functions below see that k is a bit of a byte.
fn bit(k: u32) -> u8
    requires { k < 8 }
    ensures { result ≡ 2 ^ k }
{
    1 << k
}

// Whether node k is in the set. A byte has no node from 8 on.
pub fn is_member(s: u8, k: NodeId) -> bool
    ensures { result ≡ member s k.0 }
{
    let i = k.0;
    if i >= 8 {
        return false;
    }
    (s >> i) % 2 == 1
}

// The set with node k in it, where a byte has room for that node.
pub fn with_member(s: u8, k: NodeId) -> u8
    ensures { k.0 < 8 → result ≡ insert s k.0 }
{
    if k.0 >= 8 {
        return s;
    }
    s | bit(k.0)
}

// How many nodes are in the set: the count of ones.
pub fn set_size(s: u8) -> u32
    ensures { result ≡ size s }
{
    u8::count_ones(s)
}

// Whether the set names only nodes below n.
pub fn is_only_below(n: u32, s: u8) -> bool
    ensures { result ≡ only_below n s }
{
    if n >= 8 {
        return true;
    }
    s < bit(n)
}
