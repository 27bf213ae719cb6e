//! A field of what came, by its tag.

ghost use Rattle.std.specs.Prelude.{◌≡◌};
ghost use Rattle.std.specs.Option.{option_map};
ghost use Rattle.edge_waits.specs.Fields.{value_at, value_in};

/// The byte that ends a field.
const SOH: u8 = 1;

// What a field says, where it begins so.
fn value_at<'a>(name: &[u8], field: &'a [u8]) -> Option<&'a [u8]>
    ensures { option_map (λ value. value.now) result ≡ value_at name.now field.now }
{
    if field.starts_with(name) {
        return Some(&field[name.len()..]);
    }
    None
}

/// What the first field says that begins with this name, as `58=`, and has come whole, with the SOH
/// behind it.
#[tactic(auto, unfolding(crate::specs::Fields::value_in))]
pub fn value_of<'a>(name: &[u8], bytes: &'a [u8]) -> Option<&'a [u8]>
    ensures { option_map (λ value. value.now) result ≡ value_in name.now bytes.now }
{
    let mut start = 0usize;
    for at in 0..bytes.len() {
        if bytes[at] == SOH {
            let value = value_at(name, &bytes[start..at]);
            if value.is_some() {
                return value;
            }
            start = at + 1;
        }
    }
    None
}
