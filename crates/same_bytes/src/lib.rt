// Two texts, byte by byte.
#![tactic(auto, using(crate::proofs::Equal::bytes_compared))]

ghost use Rattle.std.specs.Prelude.{◌≡◌};
ghost use Rattle.same_bytes.specs.Same.{equal_bytes};

pub fn same_bytes(a: &[u8], b: &[u8]) -> bool
    ensures { result ≡ equal_bytes a.now b.now }
{
    a == b
}
