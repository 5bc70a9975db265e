//! The world of a script, and what its lines do to it.

ghost use Rattle.std.specs.Prelude.{◌≡◌, ◌+◌, ◌<◌, ◌≤◌, IfSome, is_some, option_map, option_and_then, Some, None, IfOk, IfErr, OnOk, length, slice_get, slice_set};
ghost use Rattle.frame_core.specs.declared.frames.Frame.{Frame};
ghost use Rattle.frame_core.specs.Rows.{frame_of};
ghost use Rattle.world_core.specs.Recalls.{ended_in, quarantined};
ghost use Rattle.site_core.specs.Naming.{frame_named};
ghost use Rattle.site_core.specs.Records.{Record};
ghost use Rattle.site_core.specs.declared.inputs.SiteInput.{SiteInput};
ghost use Rattle.world_core.specs.Turns.{frame_at, input_at};
ghost use Rattle.world_core.specs.Worlds.{Standing, Up, Down, records};
ghost use Rattle.recall_text.specs.Answer.{answer_of};
ghost use Rattle.script_core.specs.Happening.{Happens, with_standing, with_frame, with_site};
ghost use Rattle.script_core.specs.State.{up_at, armed_at};

use crate::worlds::{MemoryWorld, Outcome};
use event_json::{SiteNo, Sites};
use frame_core::{FrameView, RecallId};
use keeper_core::Keep;
use recall_text::answers::Answer;
use recall_text::tasks::Task;
use site_core::{FrameName, SiteState};
use std::alloc::{AllocError, Global};
use std::marker::Model;
use trace_core::Pair;
use world_core::WorldInput;

/// The sites of a script, how they stand, the frames sent, and the stop that is armed for each site's
/// next step.
#[derive(Drop)]
pub(crate) struct Running {
    pub(crate) sites: Sites,
    pub(crate) world: MemoryWorld,
    pub(crate) armed: Vec<Option<Keep>>,
}

impl Model for Running {
    ghost use Rattle.std.specs.Prelude.{◌≡◌, length};
    ghost use Rattle.std.specs.Coded.{codes};
    ghost use Rattle.site_core.specs.Codes.{coded_record};
    ghost use Rattle.recall_text.specs.State.{World};

    ghost Value = { World };

    ghost coded = { Prim.hlevel (codes, coded_record) };

    ghost view = { λ r. record { sites = r.sites; world = r.world; armed = r.armed.items } };

    ghost invariant = { λ r. (length r.world.sites ≡ length r.sites)
        × (length r.armed.items ≡ length r.sites) };
}

impl Running {
    ghost use Rattle.event_json.specs.Sites.{named};
    ghost use Rattle.recall_text.specs.Steps.{task_of};
    ghost use Rattle.script_core.specs.Tasks.{DoesTask};
    ghost use Rattle.script_core.specs.Memory.{DoingTakesMemory};

    /// The world of these sites.
    pub(crate) fn new(sites: Sites, world: MemoryWorld, armed: Vec<Option<Keep>>) -> Running
        requires all_stand { length world.sites ≡ length sites }
        requires one_each { length armed.items ≡ length sites }
        ensures { result ≡ record { sites = sites; world = world; armed = armed.items } }
    {
        Running {
            sites,
            world,
            armed,
        }
    }

    /// Does what a line asks. After an `Err` nothing is said of the world.
    pub(crate) fn answer(&mut self, alloc: Global, task: Task<'_>) -> Result<Answer, AllocError>
        ensures ok { IfOk result (λ a. DoesTask self.old (task_of task.entry)
            (answer_of a) self.new) }
        ensures err { IfErr result (λ _. DoingTakesMemory self.old (task_of task.entry)) }
    {
        match task {
            Task::Capture { name, document } => self.capture(alloc, name, document),
            Task::Reach { name, item } => self.reach(alloc, name, item),
            Task::Recall { name, item } => self.recall(alloc, name, item),
            Task::Send { name, number } => self.send(alloc, name, number),
            Task::Signal {
                name,
                sender,
                number,
            } => self.signal(alloc, name, sender, number),
            Task::Deliver { place } => self.deliver(alloc, place),
            Task::Stop { name, keep } => self.stop(alloc, name, keep),
            Task::Reopen { name } => self.reopen(alloc, name),
            Task::Pump { rounds } => self.pump(alloc, rounds),
            Task::Quarantine { name, number } => self.quarantine(alloc, name, number),
        }
    }

    /// The site of a name.
    pub(crate) fn find(&self, name: &str) -> Option<SiteNo>
        ensures found { result ≡ named self.now.sites name.now }
        ensures stands { IfSome result (λ site. site < length self.now.world.sites) }
    {
        self.sites.find(name)
    }

    /// The sites.
    pub(crate) fn names(&self) -> &Sites
        ensures { result.now ≡ self.now.sites }
    {
        &self.sites
    }

    /// How many sites there are, 2 to 16.
    pub(crate) fn count(&self) -> u64
        ensures sites { result ≡ length self.now.sites }
        ensures standing { result ≡ length self.now.world.sites }
        ensures few { result ≤ 16 }
    {
        self.sites.len()
    }

    /// The record of a site, `None` while it is down and where there is no such site.
    pub(crate) fn state(&self, site: SiteNo) -> Option<&SiteState>
        ensures { option_map (λ s. s.now) result ≡ up_at self.now site }
    {
        self.world.view(site)
    }

    /// Whether a site is up.
    pub(crate) fn is_up(&self, site: SiteNo) -> bool
        ensures { result ≡ is_some (up_at self.now site) }
    {
        self.world.is_up(site)
    }

    /// The frame that was sent at a place, from 1.
    pub(crate) fn frame(&self, place: u64) -> Option<FrameView<'_>>
        ensures { option_map frame_of result ≡ frame_at self.now.world.sent place }
    {
        self.world.frame(place)
    }

    /// How many frames were sent.
    pub(crate) fn sent(&self) -> u64
        ensures { result ≡ length self.now.world.sent }
    {
        self.world.sent()
    }

    /// What all sites hold under a recall, where all are up.
    pub(crate) fn quarantined(&self, recall: RecallId) -> Result<Vec<Pair>, AllocError>
        ensures { IfOk result (λ pairs. pairs.items ≡ quarantined recall (records self.now.world)) }
    {
        self.world.quarantined(recall)
    }

    /// Whether a recall has ended, `None` where its initiator is down or has no such recall.
    pub(crate) fn ended(&self, recall: RecallId) -> Option<bool>
        ensures { result ≡ option_and_then (ended_in recall) (up_at self.now recall.site) }
    {
        self.world.ended(recall)
    }

    /// Gives an input to a site that is up: it is a step, or the stop that is armed for it.
    pub(crate) fn hand(&mut self, site: SiteNo, input: WorldInput) -> Result<Outcome, AllocError>
        ensures { (old : Record) (given : SiteInput) → up_at self.old site ≡ Some old
            → input_at self.old.world.sent site input ≡ Some given
            → IfOk result (λ outcome. (standing : Standing)
            × Happens old (armed_at self.old site) given outcome standing
            × (self.new ≡ with_standing self.old site standing)) }
    {
        let armed = self.disarm(site);
        self.world.happen(site, armed, input)
    }

    /// Sends the frame of a name that the record of a site that is up makes emittable, and returns its place among
    /// those sent.
    pub(crate) fn emit(&mut self, site: SiteNo, name: FrameName) -> Result<u64, AllocError>
        ensures { (old : Record) (frame : Frame) → up_at self.old site ≡ Some old
            → frame_named old.engagement name ≡ Some frame
            → IfOk result (λ at. (at ≡ length self.old.world.sent + 1)
            × (self.new ≡ with_frame self.old frame)) }
    {
        self.world.send(site, name)
    }

    /// Opens a site that is down.
    pub(crate) fn open(&mut self, site: SiteNo) -> Result<(), AllocError>
        ensures { (r : Record) → slice_get self.old.world.sites site ≡ Some (Down r)
            → OnOk result (self.new ≡ record self.old {
              world = with_site self.old.world site
                  (Up r);
            }) }
    {
        self.world.reopen(site)
    }

    /// The stop that was armed for a site's next step; it isn't any more.
    fn disarm(&mut self, site: SiteNo) -> Option<Keep>
        ensures was { result ≡ armed_at self.old site }
        ensures now { self.new ≡ record self.old { armed = slice_set self.old.armed site None } }
    {
        let place = site.number() as usize;
        if place >= self.armed.len() {
            return None;
        }
        let armed = self.armed[place];
        self.armed[place] = None;
        armed
    }
}
