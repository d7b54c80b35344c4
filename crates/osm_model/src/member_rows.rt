//! Members of many relations.

ghost use Rattle.std.specs.Prelude.{◌≡◌, ◌<◌, ◌≤◌, ◌+◌, ◌^◌, ◌++◌, ◌∷◌, [], length, OnOk, OnErr, IsTrue, ◌↔◌, slice_range, slice_index_or};
ghost use Rattle.osm_model.specs.Grew.{Grew};

use crate::relations::{Member, MemberKind};
use crate::text::TagText;
use crate::text_table::TextTable;
use std::alloc::{AllocError, Global};
use std::marker::Model;

/// A member, by the number of its role.
#[derive(Clone, Copy, Debug)]
pub(crate) struct Mark {
    pub role: u32,
    pub kind: MemberKind,
    pub id: i64,
}

/// The members of many relations, one after the other.
#[derive(Debug, Drop)]
pub(crate) struct MemberRows {
    roles: TextTable,
    marks: Vec<Mark>,
    /// Memory was wanting: a role may stand here that no member has, and no member is taken any more.
    short: bool,
}

impl Model for MemberRows {
    ghost use Rattle.std.specs.Prelude.{List, map};
    ghost use Rattle.osm_model.specs.declared.relations.Member.{Member};

    ghost Value = { List Member };

    ghost use Rattle.osm_model.specs.MemberRows.{member_of, AreMembers};

    ghost view = { λ a. map (member_of a.roles) a.marks.items };

    ghost invariant = { λ a. AreMembers a.roles a.marks.items a.short };
}

impl MemberRows {
    /// An empty list. Does not allocate.
    pub fn new(alloc: Global) -> MemberRows
        ensures { result ≡ [] }
    {
        MemberRows {
            roles: TextTable::new(alloc),
            marks: Vec::new(alloc),
            short: false,
        }
    }

    /// The number of members.
    pub fn len(&self) -> usize
        ensures { result ≡ length self.now }
    {
        self.marks.len()
    }

    #[tactic(auto, using(crate::proofs::MemberLemmas::member_behind, crate::proofs::MemberLemmas::members_kept, crate::proofs::MemberLemmas::members_pushed, crate::proofs::MemberLemmas::members_short))]
    /// Puts a member after the last one. Without memory the list stays as it was, from then on.
    pub fn push(&mut self, member: &Member) -> Result<(), AllocError>
        requires { length self.now + 1 < 2 ^ 31 }
        ensures ok { OnOk result (self.new ≡ self.old ++ member.now ∷ []) }
        ensures err { OnErr result (self.new ≡ self.old) }
    {
        if self.short {
            return Err(AllocError);
        }
        self.short = true;
        let role = self.roles.put(&member.role)?;
        let mark = mark_of(role, member.kind, &member.id);
        self.marks.push(mark)?;
        self.short = false;
        Ok(())
    }

    #[tactic(auto, using(crate::proofs::TextLemmas::grew_none, crate::proofs::TextLemmas::grew_by))]
    /// Puts members after the last one. Without memory some of them may be there.
    pub fn extend(&mut self, members: &[Member]) -> Result<(), AllocError>
        requires { length self.now + length members.now < 2 ^ 31 }
        ensures ok { OnOk result (self.new ≡ self.old ++ members.now) }
        ensures grew { Grew self.old self.new }
    {
        for member in members {
            self.push(member)?;
        }
        Ok(())
    }

    #[tactic(auto, using(crate::proofs::MemberLemmas::members_part))]
    /// The members from one place up to another.
    pub fn part(&self, from: usize, to: usize) -> MembersView<'_>
        requires rises { from ≤ to }
        requires inside { to ≤ length self.now }
        ensures { result ≡ slice_range self.now from to }
    {
        MembersView {
            roles: self.roles.as_slice(),
            marks: &self.marks[from..to],
        }
    }
}

/// The member by the number of its role.
fn mark_of(role: u32, kind: MemberKind, id: &i64) -> Mark
    ensures { result ≡ record { role = role; kind = kind; id = id.now } }
{
    Mark {
        role,
        kind,
        id: *id,
    }
}

/// Members, to be read. Contracts see them as the list of these members.
#[derive(Debug, Drop)]
pub struct MembersView<'a> {
    roles: &'a [TagText],
    marks: &'a [Mark],
}

impl<'a> Model for MembersView<'a> {
    ghost use Rattle.std.specs.Prelude.{List, map};
    ghost use Rattle.osm_model.specs.declared.relations.Member.{Member};

    ghost Value = { List Member };

    ghost use Rattle.osm_model.specs.MemberRows.{member_of, HaveRoles};

    ghost view = { λ v. map (member_of v.roles.now) v.marks.now };

    ghost invariant = { λ v. HaveRoles v.roles.now v.marks.now };
}

impl<'a> MembersView<'a> {
    /// The number of members.
    pub fn len(&self) -> usize
        ensures { result ≡ length self.now }
    {
        self.marks.len()
    }

    /// Whether there is none.
    pub fn is_empty(&self) -> bool
        ensures { IsTrue result ↔ (self.now ≡ []) }
    {
        self.marks.is_empty()
    }

    /// The member at place `i`.
    pub fn at(&self, i: usize) -> MemberView<'a>
        requires { i < length self.now }
        ensures { result ≡ slice_index_or self.now i result }
    {
        let marks = self.marks;
        let mark = &marks[i];
        MemberView {
            role: self.roles[mark.role as usize].as_str(),
            mark,
        }
    }
}

/// A member, to be read. Contracts see it as that member.
#[derive(Debug, Drop)]
pub struct MemberView<'a> {
    role: &'a str,
    mark: &'a Mark,
}

impl<'a> Model for MemberView<'a> {
    ghost use Rattle.osm_model.specs.declared.relations.Member.{Member};

    ghost Value = { Member };

    ghost view = { λ v. record { role = v.role.now; kind = v.mark.now.kind; id = v.mark.now.id } };
}

impl<'a> MemberView<'a> {
    /// Its role.
    pub fn role(&self) -> &'a str
        ensures { result.now ≡ self.now.role }
    {
        self.role
    }

    /// The kind of the object.
    pub fn kind(&self) -> MemberKind
        ensures { result ≡ self.now.kind }
    {
        self.mark.kind
    }

    /// The id of the object.
    pub fn id(&self) -> i64
        ensures { result ≡ self.now.id }
    {
        self.mark.id
    }
}
