// Tests over lent lists of nodes and of counts.
ghost use Rattle.std.specs.Prelude.{◌≡◌, drop};
ghost use Rattle.stripes.specs.Lists.{every, has, repeats, differ, within};

use codes::Code;

pub fn is_within(code: Code, v: u8) -> bool
    ensures { result ≡ within code v }
{
    (1..=code.n).contains(&v)
}

pub fn all_within(code: Code, nodes: &[u8]) -> bool
    ensures { result ≡ every (within code) nodes.now }
{
    nodes.iter().all(|v| is_within(code, *v))
}

// Whether v is one of the nodes from a place on.
pub fn has(nodes: &[u8], from: usize, v: u8) -> bool
    ensures { result ≡ has v (drop from nodes.now) }
{
    nodes.iter().skip(from).any(|x| *x == v)
}

pub fn repeats(nodes: &[u8]) -> bool
    ensures { result ≡ repeats nodes.now }
{
    nodes.iter().enumerate().any(|(i, v)| has(nodes, i + 1, *v))
}

pub fn differ(counts: &[u32]) -> bool
    ensures { result ≡ differ counts.now }
{
    let Some((first, rest)) = counts.split_first() else {
        return false;
    };
    rest.iter().any(|count| count != first)
}
