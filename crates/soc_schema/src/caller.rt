//! Who asks, and what they may see.
ghost use Rattle.std.specs.Prelude.{◌≡◌, IfOk};

use crate::permission::Permissions;
use soc_base::{NoMemory, TextList};
use std::alloc::Global;
use std::marker::Model;
use std::sync::Arc;
use toml::Value;

/// Names of products. All who hold the list share it.
#[derive(Debug, Drop)]
pub struct ProductNames {
    names: Arc<TextList>,
}

impl Model for ProductNames {
    ghost use Rattle.std.specs.Prelude.{List, ℕ};

    ghost Value = { List (List ℕ) };

    ghost view = { λ p. p.names.value };
}

impl ProductNames {
    /// The names of the list.
    pub fn new(alloc: Global, names: TextList) -> Result<ProductNames, NoMemory>
        ensures { IfOk result (λ list. list ≡ names) }
    {
        Ok(ProductNames {
            names: Arc::new(alloc, names)?,
        })
    }

    /// The same list. It takes no memory.
    pub fn share(&self) -> Result<ProductNames, NoMemory>
        ensures { IfOk result (λ list. list ≡ self.now) }
    {
        Ok(ProductNames {
            names: Arc::try_clone(&self.names)?,
        })
    }

    /// The names.
    pub fn as_list(&self) -> &TextList
        ensures { result.now ≡ self.now }
    {
        &self.names
    }
}

/// The products whose crashes are shown.
#[derive(Debug, Drop)]
pub enum Products {
    /// Each product, and crashes without one.
    All,
    /// The products of the list alone.
    Some(ProductNames),
}

/// Who asks.
#[derive(Debug, Drop)]
pub struct Caller {
    /// What the caller may do.
    pub permissions: Permissions,
    /// The products whose crashes the caller may see.
    pub products: Products,
}

impl Products {
    ghost use Rattle.std.specs.Prelude.{◌≡◌, IfOk};
    ghost use Rattle.toml.specs.View.{view};
    ghost use Rattle.soc_schema.specs.TokenFile.{products_of};

    /// The products that a value of a settings file names: the text `all`, or an array of at most 256 texts. `None`
    /// for any other value.
    pub fn read(alloc: Global, value: &Value) -> Result<Option<Products>, NoMemory>
        ensures { IfOk result (λ products. products ≡ products_of (view value.now)) }
    {
        if soc_toml::is_text(value, "all") {
            return Ok(Some(Products::All));
        }
        match soc_toml::texts_within(alloc, value, 256)? {
            Some(names) => Ok(Some(Products::Some(ProductNames::new(alloc, names)?))),
            None => Ok(None),
        }
    }

    /// The same products, whose list is shared. It takes no memory.
    pub fn share(&self) -> Result<Products, NoMemory>
        ensures { IfOk result (λ products. products ≡ self.now) }
    {
        match self {
            Products::All => Ok(Products::All),
            Products::Some(names) => Ok(Products::Some(names.share()?)),
        }
    }
}
