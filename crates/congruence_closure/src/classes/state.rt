//! The state of the congruence closure.

ghost use Rattle.std.specs.Prelude.{◌≡◌, ◌≢◌, ℕ, ◌<◌, [], ◌∷◌, ◌++◌, Contains, Some, length, slice_get, slice_index, OnOk, IfOk, MatchOption};
ghost use Rattle.indexmap.specs.IndexMap.{get};
ghost use Rattle.term_pool.specs.NodeCodes.{same_node};
ghost use Rattle.congruence_closure.specs.Congruence.{IsWithin};
ghost use Rattle.congruence_closure.specs.Signatures.{class_in, renamed, classes_among};
ghost use Rattle.congruence_closure.specs.declared.classes.link.Link.{Link};
ghost use Rattle.congruence_closure.specs.States.{AreEnds, AreMoved, IsRenamed, IsNext, IsDone, IsPartOf, AreUsersAdded, IsKept};

use crate::classes::link::{Equation, Link, Why};
use crate::classes::lists::Numbers;
use crate::classes::table::{enter, enter_users};
use base::memory::NoMemory;
use indexmap::IndexMap;
use std::alloc::Global;
use std::mem;
use term_pool::node::Node;

// The class after the representative `from` is replaced by `to`.
fn renamed(class: usize, from: usize, to: usize) -> usize
    ensures { result ≡ renamed from to class }
{
    if class == from { to } else { class }
}

// Replaces the representative of a class, all of whose numbers are among these.
fn rename(classes: &mut [usize], numbers: &[usize], from: usize, to: usize)
    requires apart { from ≢ to }
    requires from { from < length classes.old }
    requires numbers { (k : ℕ) → k < length numbers.now → slice_index numbers.now k < length classes.old }
    requires all { (i : ℕ) → i < length classes.old → class_in classes.old i ≡ from → Contains numbers.now i }
    ensures { IsRenamed classes.old classes.new from to }
{
    for number in numbers {
        classes[*number] = renamed(classes[*number], from, to);
    }
}

// Moves the members of one class to another.
fn move_members(
    alloc: Global,
    members: &mut [Numbers],
    from: usize,
    to: usize,
) -> Result<Numbers, NoMemory>
    requires apart { from ≢ to }
    requires from { from < length members.old }
    requires to { to < length members.old }
    ensures { IfOk result (λ moved. AreMoved members.old members.new from to moved) }
{
    let moved = mem::replace(&mut members[from], Numbers::new(alloc));
    members[to].append(moved.as_slice())?;
    Ok(moved)
}

// The next pending edge that joins two classes.
fn next_link(classes: &[usize], waiting: &mut Vec<Link>) -> Option<Link>
    requires left { (k : ℕ) (l : Link) → slice_get waiting.old.items k ≡ Some l → l.left < length classes.now }
    requires right { (k : ℕ) (l : Link) → slice_get waiting.old.items k ≡ Some l → l.right < length classes.now }
    ensures { MatchOption result (IsDone (class_in classes.now) waiting.old.items waiting.new.items) (IsNext (class_in classes.now) waiting.old.items waiting.new.items) }
{
    while let Some(link) = waiting.pop() {
        if classes[link.left] != classes[link.right] {
            return Some(link);
        }
    }
    None
}

// Adds a number to the use list of another one.
fn add_one_user(users: &mut [Numbers], part: usize, number: usize) -> Result<(), NoMemory>
    requires { part < length users.old }
    ensures { OnOk result (AreUsersAdded users.old users.new number (λ p. p ≡ part)) }
{
    users[part].push(number)
}

// Adds a number to the use list of each part of a node.
fn add_user(users: &mut [Numbers], node: Node, number: usize) -> Result<(), NoMemory>
    requires { IsWithin (length users.old) node }
    ensures { OnOk result (AreUsersAdded users.old users.new number (IsPartOf node)) }
{
    match node {
        Node::Leaf(_) => Ok(()),
        Node::One(_, a) => add_one_user(users, a, number),
        Node::Two(_, a, b) => {
            add_one_user(users, a, number)?;
            add_one_user(users, b, number)
        }
        Node::Three(_, a, b, c) => {
            add_one_user(users, a, number)?;
            add_one_user(users, b, number)?;
            add_one_user(users, c, number)
        }
    }
}

/// The nodes, the equations, and the data structures that maintain the classes.
#[derive(Drop)]
pub(crate) struct State {
    alloc: Global,
    pub(crate) nodes: Vec<Node>,
    pub(crate) equations: Vec<Equation>,
    // The representative of the class of each number.
    pub(crate) classes: Vec<usize>,
    // The members of each class, by its representative.
    members: Vec<Numbers>,
    // The use list of each number: the nodes of which it is a part.
    users: Vec<Numbers>,
    // A number for the signature of each node: its head symbol and the classes of its parts.
    table: IndexMap<Node, usize>,
    // The edges that joined classes, in order.
    pub(crate) links: Vec<Link>,
    // The pending edges.
    waiting: Vec<Link>,
}

impl State {
    /// The state without nodes.
    pub(crate) fn new(alloc: Global) -> State
        ensures nodes { result.nodes.items ≡ [] }
        ensures equations { result.equations.items ≡ [] }
        ensures waiting { result.waiting.items ≡ [] }
        ensures kept { IsKept result.nodes.items result.equations.items result.classes.items result.members.items result.users.items (get same_node result.table) result.links.items result.waiting.items }
    {
        State {
            alloc,
            nodes: Vec::new(alloc),
            equations: Vec::new(alloc),
            classes: Vec::new(alloc),
            members: Vec::new(alloc),
            users: Vec::new(alloc),
            table: IndexMap::new(alloc),
            links: Vec::new(alloc),
            waiting: Vec::new(alloc),
        }
    }

    // Joins the two classes of the ends of an edge: the first gets the other's representative, and the nodes of its
    // use lists are entered in the table again.
    fn merge(&mut self, link: Link, from: usize, to: usize) -> Result<(), NoMemory>
        requires kept { IsKept self.old.nodes.items self.old.equations.items self.old.classes.items self.old.members.items self.old.users.items (get same_node self.old.table) self.old.links.items (self.old.waiting.items ++ link ∷ []) }
        requires ends { AreEnds (class_in self.old.classes.items) link from to }
        requires apart { from ≢ to }
        ensures nodes { OnOk result (self.new.nodes.items ≡ self.old.nodes.items) }
        ensures equations { OnOk result (self.new.equations.items ≡ self.old.equations.items) }
        ensures kept { OnOk result (IsKept self.new.nodes.items self.new.equations.items self.new.classes.items self.new.members.items self.new.users.items (get same_node self.new.table) self.new.links.items self.new.waiting.items) }
        ensures fewer { OnOk result (classes_among (length self.old.nodes.items) (class_in self.new.classes.items) < classes_among (length self.old.nodes.items) (class_in self.old.classes.items)) }
    {
        self.links.push(link)?;
        let moved = move_members(self.alloc, self.members.as_mut_slice(), from, to)?;
        rename(self.classes.as_mut_slice(), moved.as_slice(), from, to);
        enter_users(
            self.nodes.as_slice(),
            self.classes.as_slice(),
            &mut self.table,
            &mut self.waiting,
            self.users.as_slice(),
            moved.as_slice(),
        )
    }

    // Joins the two different classes of the ends of an edge. The one with fewer members gets the other's
    // representative.
    fn join(&mut self, link: Link) -> Result<(), NoMemory>
        requires kept { IsKept self.old.nodes.items self.old.equations.items self.old.classes.items self.old.members.items self.old.users.items (get same_node self.old.table) self.old.links.items (self.old.waiting.items ++ link ∷ []) }
        requires apart { class_in self.old.classes.items link.left ≢ class_in self.old.classes.items link.right }
        ensures nodes { OnOk result (self.new.nodes.items ≡ self.old.nodes.items) }
        ensures equations { OnOk result (self.new.equations.items ≡ self.old.equations.items) }
        ensures kept { OnOk result (IsKept self.new.nodes.items self.new.equations.items self.new.classes.items self.new.members.items self.new.users.items (get same_node self.new.table) self.new.links.items self.new.waiting.items) }
        ensures fewer { OnOk result (classes_among (length self.old.nodes.items) (class_in self.new.classes.items) < classes_among (length self.old.nodes.items) (class_in self.old.classes.items)) }
    {
        let left = self.classes[link.left];
        let right = self.classes[link.right];
        if self.members[left].len() < self.members[right].len() {
            self.merge(link, left, right)
        } else {
            self.merge(link, right, left)
        }
    }

    /// Joins classes until no edge is pending.
    pub(crate) fn settle(&mut self) -> Result<(), NoMemory>
        requires kept { IsKept self.old.nodes.items self.old.equations.items self.old.classes.items self.old.members.items self.old.users.items (get same_node self.old.table) self.old.links.items self.old.waiting.items }
        ensures nodes { OnOk result (self.new.nodes.items ≡ self.old.nodes.items) }
        ensures equations { OnOk result (self.new.equations.items ≡ self.old.equations.items) }
        ensures waiting { OnOk result (self.new.waiting.items ≡ []) }
        ensures kept { OnOk result (IsKept self.new.nodes.items self.new.equations.items self.new.classes.items self.new.members.items self.new.users.items (get same_node self.new.table) self.new.links.items self.new.waiting.items) }
    {
        while let Some(link) = next_link(self.classes.as_slice(), &mut self.waiting) {
            self.join(link)?;
        }
        Ok(())
    }

    /// Adds a node, whose parts are numbers of nodes.
    pub(crate) fn add_node(&mut self, node: Node) -> Result<(), NoMemory>
        requires kept { IsKept self.old.nodes.items self.old.equations.items self.old.classes.items self.old.members.items self.old.users.items (get same_node self.old.table) self.old.links.items self.old.waiting.items }
        requires parts { IsWithin (length self.old.nodes.items) node }
        ensures nodes { OnOk result (self.new.nodes.items ≡ self.old.nodes.items ++ node ∷ []) }
        ensures equations { OnOk result (self.new.equations.items ≡ self.old.equations.items) }
        ensures kept { OnOk result (IsKept self.new.nodes.items self.new.equations.items self.new.classes.items self.new.members.items self.new.users.items (get same_node self.new.table) self.new.links.items self.new.waiting.items) }
    {
        let number = self.nodes.len();
        let mut alone = Numbers::new(self.alloc);
        alone.push(number)?;
        self.nodes.push(node)?;
        self.classes.push(number)?;
        self.members.push(alone)?;
        self.users.push(Numbers::new(self.alloc))?;
        add_user(self.users.as_mut_slice(), node, number)?;
        enter(
            self.nodes.as_slice(),
            self.classes.as_slice(),
            &mut self.table,
            &mut self.waiting,
            number,
        )
    }

    /// Adds an equation, whose sides are numbers of nodes.
    pub(crate) fn add_equation(&mut self, left: usize, right: usize) -> Result<(), NoMemory>
        requires kept { IsKept self.old.nodes.items self.old.equations.items self.old.classes.items self.old.members.items self.old.users.items (get same_node self.old.table) self.old.links.items self.old.waiting.items }
        requires left { left < length self.old.nodes.items }
        requires right { right < length self.old.nodes.items }
        ensures nodes { OnOk result (self.new.nodes.items ≡ self.old.nodes.items) }
        ensures equations { OnOk result (self.new.equations.items ≡ self.old.equations.items ++ record { left = left; right = right } ∷ []) }
        ensures kept { OnOk result (IsKept self.new.nodes.items self.new.equations.items self.new.classes.items self.new.members.items self.new.users.items (get same_node self.new.table) self.new.links.items self.new.waiting.items) }
    {
        let why = Why::Given(self.equations.len());
        self.equations.push(Equation { left, right })?;
        self.waiting.push(Link { left, right, why })?;
        Ok(())
    }
}
