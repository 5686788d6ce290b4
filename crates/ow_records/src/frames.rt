// What is kept of a composite while it is open.
ghost use Rattle.std.specs.Prelude.{◌≡◌, ◌↔◌, IsTrue, IfOk};
ghost use Rattle.ow_records.specs.Frame.{conducted_by, counted, first_frame, with_child, with_end, with_used};

use crate::{Id, Response, Role};
use ow_value::{Items, NoMemory, PlainData, copied3, copy_slice};
use std::alloc::Global;

/// The end of a child.
#[derive(Drop)]
pub struct Heard {
    /// What part the child had.
    pub role: Role,
    /// What it answered.
    pub response: Response,
}

/// How many activations a composition has made, over the whole tree of its first one.
#[derive(Clone, Copy, Debug, PartialEq, Eq, Drop)]
pub struct Used {
    /// Components of sequences and of conductors.
    pub components: u32,
    /// Runs of conductors' own code.
    pub conductors: u32,
}

/// What is kept of a composite while it is open.
#[derive(Drop)]
pub struct Frame {
    /// The composite.
    pub id: Id,
    /// Its direct children, by their acceptance.
    pub children: Items<Id>,
    /// The end of the last child, where that has ended.
    pub last: Option<Heard>,
    /// The response of the last run of a conductor's own code that has ended.
    pub conducted: Option<Response>,
    /// What its tree has used, where it is the first of its composition.
    pub used: Used,
}

impl Frame {
    /// The frame of a composite that has called nothing yet. This takes no memory.
    pub fn new(id: Id) -> Frame
        ensures { result ≡ first_frame id }
    {
        Frame {
            id,
            children: Items::new(),
            last: None,
            conducted: None,
            used: Used {
                components: 0,
                conductors: 0,
            },
        }
    }

    /// The frame with one more child, which has not ended.
    pub fn with_child(&self, alloc: Global, child: Id) -> Result<Frame, NoMemory>
        ensures { IfOk result (λ f. f ≡ with_child child self.now) }
    {
        let conducted = self.conducted.copy(alloc)?;
        let mut children = copy_slice(alloc, self.children.as_slice())?;
        children.push(child)?;
        let children = Items::from_vec(children)?;
        Ok(Frame {
            id: self.id,
            children,
            last: None,
            conducted,
            used: self.used,
        })
    }

    /// The frame once its last child has ended.
    pub fn with_end(
        &self,
        alloc: Global,
        role: Role,
        response: &Response,
    ) -> Result<Frame, NoMemory>
        ensures { IfOk result (λ f. f ≡ with_end role response.now self.now) }
    {
        let children = self.children.copy(alloc)?;
        let conducted = conducted_by(alloc, role, response, &self.conducted)?;
        let response = response.copy(alloc)?;
        Ok(Frame {
            id: self.id,
            children,
            last: Some(Heard { role, response }),
            conducted,
            used: self.used,
        })
    }

    /// The frame with one more activation of this role in its tree.
    pub fn with_used(&self, alloc: Global, role: Role) -> Result<Frame, NoMemory>
        ensures { IfOk result (λ f. f ≡ with_used role self.now) }
    {
        let (children, last, conducted) = copied3(
            alloc,
            &self.children,
            &self.last,
            &self.conducted,
        )?;
        Ok(Frame {
            id: self.id,
            children,
            last,
            conducted,
            used: self.used.counted(role),
        })
    }
}

impl Used {
    /// With one more activation of this role.
    pub fn counted(self, role: Role) -> Used
        ensures { result ≡ counted role self }
    {
        match role {
            Role::Alone => self,
            Role::Component => Used {
                components: self.components.saturating_add(1),
                conductors: self.conductors,
            },
            Role::Run => Used {
                components: self.components,
                conductors: self.conductors.saturating_add(1),
            },
        }
    }
}

// The response of the last run of a conductor's own code, once a child of this role has ended.
fn conducted_by(
    alloc: Global,
    role: Role,
    response: &Response,
    before: &Option<Response>,
) -> Result<Option<Response>, NoMemory>
    ensures { IfOk result (λ r. r ≡ conducted_by role response.now before.now) }
{
    match role {
        Role::Run => Ok(Some(response.copy(alloc)?)),
        Role::Alone | Role::Component => before.copy(alloc),
    }
}

impl PlainData for Heard {
    fn same(&self, other: &Heard) -> bool {
        self.role == other.role && self.response.same(&other.response)
    }

    fn copy(&self, alloc: Global) -> Result<Heard, NoMemory> {
        Ok(Heard {
            role: self.role,
            response: self.response.copy(alloc)?,
        })
    }
}

impl PlainData for Frame {
    fn same(&self, other: &Frame) -> bool {
        self.id == other.id
            && self.children.same(&other.children)
            && self.last.same(&other.last)
            && self.conducted.same(&other.conducted)
            && self.used == other.used
    }

    fn copy(&self, alloc: Global) -> Result<Frame, NoMemory> {
        let (children, last, conducted) = copied3(
            alloc,
            &self.children,
            &self.last,
            &self.conducted,
        )?;
        Ok(Frame {
            id: self.id,
            children,
            last,
            conducted,
            used: self.used,
        })
    }
}
