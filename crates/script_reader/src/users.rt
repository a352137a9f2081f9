ghost use Rattle.std.specs.Prelude.{◌≡◌, ◌++◌, ◌∷◌, [], not, IfOk, OnErr, if◌then◌else◌};
ghost use Rattle.script_reader.specs.Names.{KnowsUsers, is_user};

use crate::script::User;
use link_ends::{NoMemory, Octets};
use std::alloc::Global;
use std::collections::BTreeSet;
use std::marker::Model;

/// Users in their order, no two of one name.
#[derive(Debug, Drop)]
pub struct Users {
    list: Vec<User>,
    names: BTreeSet<Vec<u8>>,
}

impl Model for Users {
    ghost use Rattle.std.specs.Prelude.{List};
    ghost use Rattle.script_reader.specs.declared.script.User.{User};
    ghost use Rattle.script_reader.specs.Names.{KnowsUsers};

    ghost Value = { List User };

    ghost view = { λ u. u.list.items };

    ghost invariant = { λ u. KnowsUsers u.names u.list.items };
}

/// Adds a user whose name is this key, unless a user has it, and answers whether none had. An `Err` changes no user.
fn insert_user(
    list: &mut Vec<User>,
    names: &mut BTreeSet<Vec<u8>>,
    key: Vec<u8>,
    user: User,
) -> Result<bool, NoMemory>
    requires known { KnowsUsers names.old list.old.items }
    requires key { key.items ≡ user.name }
    ensures added { IfOk result (λ added. added ≡ not (is_user user.name list.old.items)) }
    ensures users { IfOk result (λ added. list.new.items ≡ (if added then list.old.items ++ user ∷ [] else list.old.items)) }
    ensures err { OnErr result (list.new.items ≡ list.old.items) }
    ensures still_known { KnowsUsers names.new list.new.items }
{
    list.reserve(1)?;
    if !names.insert(key)? {
        return Ok(false);
    }
    list.push(user).unwrap();
    Ok(true)
}

impl Users {
    /// No user yet.
    pub fn new(alloc: Global) -> Users
        ensures { result ≡ [] }
    {
        Users {
            list: Vec::new(alloc),
            names: BTreeSet::new(alloc),
        }
    }

    /// Adds a user, unless one has this name, and answers whether none had. An `Err` changes nothing.
    pub fn add(&mut self, alloc: Global, name: &[u8], password: &[u8]) -> Result<bool, NoMemory>
        ensures added { IfOk result (λ added. added ≡ not (is_user name.now self.old)) }
        ensures users { IfOk result (λ added. self.new ≡ (if added
            then self.old ++ record { name = name.now; password = password.now } ∷ []
            else self.old)) }
        ensures err { OnErr result (self.new ≡ self.old) }
    {
        let user = User {
            name: Octets::of(alloc, name)?,
            password: Octets::of(alloc, password)?,
        };
        let key = Vec::from_slice(alloc, name)?;
        insert_user(&mut self.list, &mut self.names, key, user)
    }

    /// All users, in the order in which they were added.
    pub fn as_slice(&self) -> &[User]
        ensures { result.now ≡ self.now }
    {
        self.list.as_slice()
    }
}
