//! What a caller sees.
ghost use Rattle.std.specs.Prelude.{◌≡◌, ◌↔◌, IsTrue, Contains, option_map};
ghost use Rattle.soc_schema.specs.Permits.{Granted, Visible, is_granted, shows};

use crate::caller::{Caller, Products};
use crate::field::Field;

/// Whether the caller may see the field.
pub fn granted(caller: &Caller, field: Field) -> bool
    ensures test { result ≡ is_granted caller.now field }
    ensures granted { IsTrue result ↔ Granted caller.now field }
{
    caller.permissions.has(field.permission())
}

/// Whether the caller may see the crashes of the product, or those without one.
pub fn visible(caller: &Caller, product: Option<&str>) -> bool
    ensures test { result ≡ shows caller.now.products (option_map (λ p. p.now) product.entry) }
    ensures visible { IsTrue result ↔ Visible caller.now (option_map (λ p. p.now) product.entry) }
{
    match &caller.products {
        Products::All => true,
        Products::Some(names) => match product {
            Some(product) => names.as_list().contains(product),
            None => false,
        },
    }
}
