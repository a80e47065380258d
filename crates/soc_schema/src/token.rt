//! The tokens that give permissions to those who bring their keys.
ghost use Rattle.std.specs.Prelude.{◌≡◌, ◌<◌, ◌≤◌, ◌++◌, ◌∷◌, [], IfOk, IfErr, OnOk, Ok, Some, None, codes, length, option_map, option_and_then, find};
ghost use Rattle.std.specs.Option.{option_copied};
ghost use Rattle.std.specs.Str.{bytes_eq};
ghost use Rattle.toml.specs.Data.{get_member, as_table};
ghost use Rattle.toml.specs.View.{view, table_view, array_view};
ghost use Rattle.soc_schema.specs.TokenFile.{IsRefusal, caller_of, has_key, is_known, next_token, permission_named, permissions_of, products_of, token_in, tokens_from, tokens_of, with_named};
ghost use Rattle.soc_schema.specs.Permits.{public_alone};

use crate::caller::{Caller, Products};
use crate::permission::{Permission, Permissions};
use soc_base::{NoMemory, Text, TextList};
use std::alloc::Global;
use std::marker::Model;
use thiserror::Error;
use toml::value::Array;
use toml::{Table, Value};

/// The most tokens that a document has.
const MOST_TOKENS: usize = 256;

/// The permissions that a token may give.
const GIVEN_PERMISSIONS: [Permission; 4] = [
    Permission::ProtectedData,
    Permission::ViewRawdump,
    Permission::ReprocessCrashes,
    Permission::Operate,
];

/// What a token gives to who brings its key. It has no `Debug`, so that no key is printed by accident.
#[derive(Drop)]
pub struct Token {
    /// 1 to 64 visible ASCII characters.
    pub key: Text,
    /// What the bearer may do.
    pub permissions: Permissions,
    /// The products whose crashes the bearer may see.
    pub products: Products,
}

/// Why a token file isn't read.
#[derive(Debug, Drop, PartialEq, Eq, Clone, Copy, Error)]
pub enum TokenError {
    /// The first token that isn't of the form has this index, from 0; a document without tokens to look at has 0.
    #[error("bad token {index}")]
    BadToken {
        /// The token's index, from 0.
        index: u32,
    },
    /// An allocation was refused.
    #[error("out of memory")]
    NoMemory,
}

impl From<NoMemory> for TokenError {
    ghost use Rattle.std.specs.Prelude.{◌≡◌};
    ghost use Rattle.soc_schema.specs.declared.token.TokenError.TheVariants.{NoMemory as Lacking};

    ghost from_gives = { λ _ error. error ≡ Lacking };

    fn from(_error: NoMemory) -> TokenError {
        TokenError::NoMemory
    }
}

/// Tokens in the order of their document, each with a key of its own.
#[derive(Drop)]
pub struct Tokens {
    tokens: Vec<Token>,
}

impl Model for Tokens {
    ghost use Rattle.std.specs.Prelude.{List};
    ghost use Rattle.soc_schema.specs.declared.token.Token.{Token};

    ghost Value = { List Token };

    ghost view = { λ t. t.tokens.items };
}

impl Tokens {
    /// The tokens of a document. `BadToken` has the index of the first bad one, and 0 where the document holds
    /// another key or no array of tokens.
    #[tactic(auto, unfolding(crate::specs::TokenFile::tokens_of))]
    pub fn read(alloc: Global, value: &Value) -> Result<Tokens, TokenError>
        ensures ok { IfOk result (λ tokens. tokens_of (view value.now) ≡ Ok tokens) }
        ensures bad { IfErr result (IsRefusal (tokens_of (view value.now))) }
    {
        let Some(table) = value.as_table() else {
            return Err(TokenError::BadToken { index: 0 });
        };
        if soc_toml::first_other_key(table, &["token"]).is_some() {
            return Err(TokenError::BadToken { index: 0 });
        }
        let Some(value) = soc_toml::value_at(table, "token") else {
            return Ok(Tokens::none(alloc));
        };
        match value.as_array() {
            Some(array) => read_array(alloc, array),
            None => Err(TokenError::BadToken { index: 0 }),
        }
    }

    /// Whether `caller` knows who asks. It takes no memory.
    pub fn knows(&self, key: Option<&str>) -> bool
        ensures { result ≡ is_known self.now (option_copied key.entry) }
    {
        match key {
            Some(key) => self.has_key(key),
            None => true,
        }
    }

    /// Who asks: everybody, with the public products, where no key is brought, else who has the token of the key.
    /// `None` where the key is no token's. The list of products is shared, and not copied.
    pub fn caller(
        &self,
        alloc: Global,
        key: Option<&str>,
        public: &Products,
    ) -> Result<Option<Caller>, NoMemory>
        ensures { IfOk result (λ caller. caller
            ≡ caller_of self.now (option_copied key.entry) public.now) }
    {
        let Some(key) = key else {
            return caller_with(Permissions::public(), public);
        };
        match self.with_key(key) {
            Some(token) => caller_with(token.permissions, &token.products),
            None => Ok(None),
        }
    }

    fn none(alloc: Global) -> Tokens
        ensures { result ≡ [] }
    {
        Tokens {
            tokens: Vec::new(alloc),
        }
    }

    fn with_key(&self, key: &str) -> Option<&Token>
        ensures { option_copied result ≡ find (λ t. bytes_eq t.key key.now) self.now }
    {
        for token in self.tokens.as_slice() {
            if token.key.as_str() == key {
                return Some(token);
            }
        }
        None
    }

    fn has_key(&self, key: &str) -> bool
        ensures { result ≡ has_key key.now self.now }
    {
        self.with_key(key).is_some()
    }

    fn push(&mut self, token: Token) -> Result<(), NoMemory>
        ensures { OnOk result (self.new ≡ self.old ++ token ∷ []) }
    {
        self.tokens.push(token)?;
        Ok(())
    }
}

fn caller_with(permissions: Permissions, products: &Products) -> Result<Option<Caller>, NoMemory>
    ensures { IfOk result (λ caller. caller
        ≡ Some (record { permissions = permissions; products = products.now })) }
{
    Ok(Some(Caller {
        permissions,
        products: products.share()?,
    }))
}

fn read_array(alloc: Global, array: &Array) -> Result<Tokens, TokenError>
    ensures ok { IfOk result (λ tokens. tokens_from [] (array_view array.now) ≡ Ok tokens) }
    ensures bad { IfErr result (IsRefusal (tokens_from [] (array_view array.now))) }
{
    let mut tokens = Tokens::none(alloc);
    for value in array {
        match read_next(alloc, &tokens, value)? {
            Some(token) => tokens.push(token)?,
            None => {
                let index = tokens.tokens.len() as u32;
                return Err(TokenError::BadToken { index });
            }
        }
    }
    Ok(tokens)
}

fn read_next(alloc: Global, earlier: &Tokens, value: &Value) -> Result<Option<Token>, NoMemory>
    ensures { IfOk result (λ token. token ≡ next_token earlier.now (view value.now)) }
{
    if earlier.tokens.len() >= MOST_TOKENS {
        return Ok(None);
    }
    let Some(table) = value.as_table() else {
        return Ok(None);
    };
    let Some(token) = read_token(alloc, table)? else {
        return Ok(None);
    };
    if earlier.has_key(token.key.as_str()) {
        return Ok(None);
    }
    Ok(Some(token))
}

fn read_token(alloc: Global, table: &Table) -> Result<Option<Token>, NoMemory>
    ensures { IfOk result (λ token. token ≡ token_in (table_view table.now)) }
{
    if soc_toml::first_other_key(table, &["key", "products", "permissions"]).is_some() {
        return Ok(None);
    }
    let Some(key) = soc_toml::visible_at(table, "key", 64) else {
        return Ok(None);
    };
    let Some(permissions) = permissions_at(alloc, table)? else {
        return Ok(None);
    };
    let Some(products) = products_at(alloc, table)? else {
        return Ok(None);
    };
    Ok(Some(Token {
        key: Text::of(alloc, key)?,
        permissions,
        products,
    }))
}

fn products_at(alloc: Global, table: &Table) -> Result<Option<Products>, NoMemory>
    ensures { IfOk result (λ products. products ≡ option_and_then products_of (get_member (codes "products") (table_view table.now))) }
{
    match soc_toml::value_at(table, "products") {
        Some(value) => Products::read(alloc, value),
        None => Ok(None),
    }
}

fn permissions_at(alloc: Global, table: &Table) -> Result<Option<Permissions>, NoMemory>
    ensures { IfOk result (λ permissions. permissions ≡ option_and_then permissions_of (get_member (codes "permissions") (table_view table.now))) }
{
    let Some(value) = soc_toml::value_at(table, "permissions") else {
        return Ok(None);
    };
    match soc_toml::texts_of(alloc, value)? {
        Some(words) => Ok(permissions_named(&words)),
        None => Ok(None),
    }
}

fn permissions_named(words: &TextList) -> Option<Permissions>
    ensures { result ≡ with_named public_alone words.now }
{
    let mut permissions = Permissions::public();
    for word in words {
        let permission = permission_named(word)?;
        permissions.add(permission);
    }
    Some(permissions)
}

fn permission_named(word: &str) -> Option<Permission>
    ensures { result ≡ permission_named word.now }
{
    for permission in &GIVEN_PERMISSIONS {
        if permission.name() == word {
            return Some(*permission);
        }
    }
    None
}
