ghost use Rattle.std.specs.Prelude.{◌≡◌, ◌+◌, ◌≤◌, IfSome, length};
ghost use Rattle.std.specs.Option.{option_copied};
ghost use Rattle.access_handshake.specs.Parameter.{parameter};

use ddm_objects::find;

/// The data of the first parameter with this code point.
#[tactic(auto, unfolding(crate::specs::Parameter::parameter))]
pub fn find_parameter(params: &[u8], code: u16) -> Option<&[u8]>
    ensures found { option_copied result ≡ parameter params.now code }
    ensures within { IfSome result (λ bytes. length bytes.now + 4 ≤ length params.now) }
{
    match find(params, code) {
        Ok(Some(object)) => Some(object.bytes),
        _ => None,
    }
}
