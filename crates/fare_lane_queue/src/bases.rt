ghost use Rattle.std.specs.Prelude.{◌≡◌, ◌↔◌, IsTrue, nat_eq};
ghost use Rattle.std.specs.List.{IsDistinct, list_any};
ghost use Rattle.std.specs.Map.{keys_of};

use fare_record::DeviceId;

/// Whether no device has two bases.
pub(crate) fn are_distinct(bases: &[(DeviceId, u64)]) -> bool
    ensures { IsTrue result ↔ IsDistinct nat_eq (keys_of bases.now) }
{
    for index in 0..bases.len() {
        if has_base(&bases[..index], bases[index].0) {
            return false;
        }
    }
    true
}

// Whether the device has a base among these.
fn has_base(bases: &[(DeviceId, u64)], device: DeviceId) -> bool
    ensures { result ≡ list_any (λ base. nat_eq device base.0) bases.now }
{
    bases.iter().any(|base| base.0 == device)
}
