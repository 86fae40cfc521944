//! The proof forest of classes that edges join one after another: each number has a parent of its class, and each
//! parent pointer has the number of the edge that added it. Paths are not compressed, so the effect of the first edges
//! remains visible (R. E. Tarjan, Efficiency of a Good But Not Linear Set Union Algorithm: the smaller tree becomes a
//! subtree of the greater one).

ghost use Rattle.std.specs.Prelude.{◌≡◌, ◌≢◌, ◌+◌, ◌<◌, length, IfOk, MatchOption};
ghost use Rattle.congruence_closure.specs.Histories.{step_of, AreAmong, AreApart, AreNotLinked, AreRising, AreStill, IsEarlier, IsHistory, IsJoin, IsLed, IsParent, IsRoot, IsStill, JoinsAt};

use crate::classes::Classes;
use crate::classes::link::Link;
use base::memory::NoMemory;
use std::alloc::Global;
use std::marker::Model;

/// A parent pointer: from a number to another one of its class.
#[derive(Clone, Copy, Debug, PartialEq, Eq)]
pub struct Step {
    /// The parent.
    pub parent: usize,
    /// The number of the edge that added it.
    pub link: usize,
}

/// The edge that joined the classes of two numbers.
#[derive(Clone, Copy, Debug, PartialEq, Eq)]
pub struct Join {
    /// The number of the edge.
    pub link: usize,
    /// Its end that was of the class of the first number.
    pub near: usize,
    /// Its end that was of the class of the second number.
    pub far: usize,
}

/// The history of the edges that joined the classes of numbers.
#[derive(Drop)]
pub struct History {
    // The parent pointer of each number that has one.
    steps: Vec<Option<Step>>,
    // The size of the tree of each root.
    sizes: Vec<usize>,
}

impl Model for History {
    ghost use Rattle.std.specs.Prelude.{◌≡◌, List, Option, length};
    ghost use Rattle.congruence_closure.specs.declared.proof_forest.Step.{Step};

    ghost Value = { List (Option Step) };

    ghost view = { λ h. h.steps.items };

    ghost invariant = { λ h. length h.sizes.items ≡ length h.steps.items };
}

impl History {
    /// The history of the edges of the classes.
    pub fn of(alloc: Global, classes: &Classes) -> Result<History, NoMemory>
        ensures { IfOk result (IsHistory classes.now.links (length classes.now.links)) }
    {
        classes.exact();
        History::of_links(alloc, classes.links(), classes.len())
    }

    /// The history of these edges, between numbers below the count.
    pub fn of_links(alloc: Global, links: &[Link], count: usize) -> Result<History, NoMemory>
        requires { AreAmong links.now count }
        ensures { IfOk result (IsHistory links.now (length links.now)) }
    {
        let mut history = History::apart(alloc, count)?;
        for number in 0..links.len() {
            history.add(links, number);
        }
        Ok(history)
    }

    // `count` numbers without parent pointers.
    fn apart(alloc: Global, count: usize) -> Result<History, NoMemory>
        ensures { IfOk result (AreApart count) }
    {
        let mut steps = Vec::new(alloc);
        steps.resize(count, None)?;
        let mut sizes = Vec::new(alloc);
        sizes.resize(count, 1)?;
        Ok(History { steps, sizes })
    }

    // The parent pointer of a number.
    fn step(&self, number: usize) -> Option<Step>
        ensures { result ≡ step_of self.now number }
    {
        match self.steps.get(number) {
            Some(step) => *step,
            None => None,
        }
    }

    // The parent of a number, if an edge before this one added the pointer.
    fn parent(&self, number: usize, before: usize) -> Option<usize>
        ensures { MatchOption result (IsStill self.now before number) (IsParent self.now before number) }
    {
        match self.step(number) {
            Some(step) => {
                if step.link < before {
                    Some(step.parent)
                } else {
                    None
                }
            }
            None => None,
        }
    }

    // The root of a number in the forest of the edges before this one.
    fn root(&self, number: usize, before: usize) -> usize
        requires { AreRising self.now }
        ensures { IsRoot self.now before number result }
    {
        let mut top = number;
        while let Some(parent) = self.parent(top, before) {
            top = parent;
        }
        top
    }

    // Joins the classes of the ends of an edge.
    fn add(&mut self, links: &[Link], number: usize)
        requires number { number < length links.now }
        requires among { AreAmong links.now (length self.old) }
        requires history { IsHistory links.now number self.old }
        ensures long { length self.new ≡ length self.old }
        ensures history { IsHistory links.now (number + 1) self.new }
    {
        let link = links[number];
        let left = self.root(link.left, number);
        let right = self.root(link.right, number);
        if left != right {
            self.lead(left, right, number);
        }
    }

    // Makes the smaller one of two trees a subtree of the other.
    fn lead(&mut self, left: usize, right: usize, link: usize)
        requires left { left < length self.old }
        requires right { right < length self.old }
        ensures { IsLed self.old left right link self.new }
    {
        let (child, parent) = if self.sizes[left] <= self.sizes[right] {
            (left, right)
        } else {
            (right, left)
        };
        self.steps[child] = Some(Step { parent, link });
        self.sizes[parent] = self.sizes[parent].saturating_add(self.sizes[child]);
    }

    // The edge that added the earlier one of the parent pointers of two numbers.
    fn earlier(&self, left: usize, right: usize) -> Option<usize>
        ensures { MatchOption result (AreStill self.now left right) (IsEarlier self.now left right) }
    {
        match (self.step(left), self.step(right)) {
            (Some(one), Some(other)) => {
                if one.link <= other.link {
                    Some(one.link)
                } else {
                    Some(other.link)
                }
            }
            (Some(step), None) | (None, Some(step)) => Some(step.link),
            (None, None) => None,
        }
    }

    /// Finds the edge that joined the classes of two numbers; none if the edges do not connect them.
    pub fn join(&self, links: &[Link], left: usize, right: usize) -> Option<Join>
        requires history { IsHistory links.now (length links.now) self.now }
        requires apart { left ≢ right }
        ensures { MatchOption result (AreNotLinked links.now left right) (IsJoin links.now left right) }
    {
        let mut one = left;
        let mut other = right;
        while let Some(link) = self.earlier(one, other) {
            one = self.root(one, link + 1);
            other = self.root(other, link + 1);
            if one == other {
                return Some(self.join_at(links, left, right, link));
            }
        }
        None
    }

    // The edge that joined the classes of two numbers, with its ends assigned to them.
    fn join_at(&self, links: &[Link], left: usize, right: usize, number: usize) -> Join
        requires history { IsHistory links.now (length links.now) self.now }
        requires number { number < length links.now }
        requires joins { JoinsAt self.now left right number }
        ensures { IsJoin links.now left right result }
    {
        let link = links[number];
        if self.root(link.left, number) == self.root(left, number) {
            Join {
                link: number,
                near: link.left,
                far: link.right,
            }
        } else {
            Join {
                link: number,
                near: link.right,
                far: link.left,
            }
        }
    }
}
