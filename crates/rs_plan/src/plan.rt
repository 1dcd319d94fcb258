//! The writes of a command.

use rs_extent::Extent;
use rs_fixity::Digests;
use rs_image::Contents;
use rs_model::Reply;
use rs_record::Name;

/// The writes of a command, and their blocks.
#[derive(Debug, Drop)]
pub struct Plan {
    /// The lists after the command. Every touched page has its blocks.
    pub contents: Contents,
    /// The blocks of the bodies that the command writes, in the order of writing.
    pub bodies: Vec<Extent>,
    /// The blocks of the directory.
    pub directory: Extent,
    /// The reply to the command.
    pub reply: Reply,
    /// All the blocks that the command writes: for the bodies, the touched pages and the directory,
    /// in the order in which the plan found them.
    pub taken: Vec<Extent>,
    /// The blocks that the old root reaches and the next root does not.
    pub freed: Vec<Extent>,
}

impl Plan {
    ghost use Rattle.std.specs.Prelude.{◌≡◌};
    ghost use Rattle.rs_plan.specs.Drafts.{AwaitsBody, plan_filled};

    /// Fills in the digests of the body that a draft binds to this name. It changes no other part
    /// of the plan, and asks for no memory.
    pub fn fill(&mut self, name: &Name, digests: Digests)
        requires { AwaitsBody name.now self.old }
        ensures { self.new ≡ plan_filled name.now digests self.old }
    {
        self.contents.catalogue.fill(name, digests);
        self.contents.history.fill_last(digests);
    }
}
