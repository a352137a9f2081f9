ghost use Rattle.std.specs.Prelude.{◌≡◌, ◌≤◌, drop, length};

/// The place behind so many more of these bytes, where those before a place were said.
#[tactic(auto, using(crate::proofs::Behind::fits_behind, crate::proofs::Behind::behind, crate::proofs::Behind::at_end))]
pub(crate) fn place_behind(bytes: &[u8], said: usize, n: usize) -> usize
    requires { n ≤ length (drop said bytes.now) }
    ensures { drop result bytes.now ≡ drop n (drop said bytes.now) }
{
    if said < bytes.len() { said + n } else { said }
}
