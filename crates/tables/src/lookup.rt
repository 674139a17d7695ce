// What is looked up in the tables.
ghost use Rattle.std.specs.Prelude.{◌≡◌, ◌≤◌, true, IsSome};
ghost use Rattle.rt0.specs.laws.Pool.{credentials as credentials_of};
ghost use Rattle.tables.specs.laws.Tables.{pairs_of};
ghost use Rattle.tables.specs.Lookup.{holds as holds_of, is_sensitive, other_of, is_direct};
ghost use Rattle.numbers.specs.Sizes.{MOST-SENSITIVE};

use crate::{House, Pairs};
use expression::{Credential, Expression, Role, key_of, raw_of, same, same_role};

impl Pairs {
    // The other role of the first pair from start on that is that of role r.
    fn other_from(&self, r: Role, start: usize) -> Option<Role>
        requires { self.now.count ≤ 32 }
        ensures found { IsSome result → is_sensitive (pairs_of self.now) r ≡ true }
        ensures first { start ≡ 0 → result ≡ other_of (pairs_of self.now) r }
    {
        for i in start..self.count {
            let p = self.pair(i);
            if same_role(p.role, r) {
                return Some(p.other);
            }
        }
        None
    }

    // The Ack role of a sensitive role, or its AC role, by the pairs of the one command or the other.
    pub fn other_of(&self, r: Role) -> Option<Role>
        requires { self.now.count ≤ 32 }
        ensures { result ≡ other_of (pairs_of self.now) r }
    {
        self.other_from(r, 0)
    }

    // Whether a role stands in 0x14.
    pub fn has(&self, r: Role) -> bool
        requires { self.now.count ≤ 32 }
        ensures { result ≡ is_sensitive (pairs_of self.now) r }
    {
        self.other_of(r).is_some()
    }

    // The same, where the pairs from start on are tried first.
    pub(crate) fn has_from(&self, r: Role, start: usize) -> bool
        requires { self.now.count ≤ 32 }
        ensures { result ≡ is_sensitive (pairs_of self.now) r }
    {
        self.other_from(r, start).is_some() || self.has(r)
    }
}

impl House {
    // Whether the subject's credentials have role r from self: whether we hold the role.
    #[tactic(auto, unfolding(crate::specs::Lookup::holds, rt0::specs::Shown::is_shown))]
    pub fn holds(&self, r: Role) -> bool
        requires { self.now.subject.count ≤ 128 }
        ensures { result ≡ holds_of self.now.own (credentials_of self.now.subject) r }
    {
        let direct = Credential {
            head: r,
            body: Expression::Entity(self.own),
        };
        self.subject.is_shown(self.subject.count, direct)
    }

    // The same, where the credentials from start on are tried first.
    pub(crate) fn holds_from(&self, r: Role, start: usize) -> bool
        requires { self.now.subject.count ≤ 128 }
        ensures { result ≡ holds_of self.now.own (credentials_of self.now.subject) r }
    {
        let key = key_of(r);
        let raw = raw_of(Expression::Entity(self.own));
        for i in start..self.subject.count {
            if self.subject.is_at(key, raw, i) {
                return true;
            }
        }
        self.holds(r)
    }

    // Whether a credential is the direct one of a sensitive role.
    #[tactic(auto, unfolding(crate::specs::Lookup::is_direct))]
    pub fn is_direct(&self, c: Credential) -> bool
        requires { self.now.sensitive.count ≤ 32 }
        ensures { result ≡ is_direct self.now.own (pairs_of self.now.sensitive) c }
    {
        if !self.sensitive.has(c.head) {
            return false;
        }
        same(c.body, Expression::Entity(self.own))
    }
}
