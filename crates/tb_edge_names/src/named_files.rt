//! What opens the files of a file system, by their names.
ghost use Rattle.std.specs.Prelude.{◌≡◌, ◌≤◌, true, length, IfOk};
ghost use Rattle.tb_edge_file.specs.Places.{place_of};
ghost use Rattle.tb_edge_names.specs.Named.{Pauses, identity_of, reading_of};
ghost use Rattle.tb_edge_names.specs.Opening.{MakesServed, OpensRead, TakesServed};
ghost use Rattle.tb_edge_names.specs.Parts.{CreatesPart, NamesPart, part_name};
ghost use Rattle.tb_edge_names.specs.Served.{IsStillThere};

use crate::looks::look_for;
use crate::names::{Copies, Name, Notes};
use crate::opening::{Opened, open_existing, open_or_create, open_to_read};
use crate::parts::{create_part, name_part, part_name};
use crate::served::{Identity, ServedFiles};
use std::alloc::Global;
use std::marker::PhantomData;
use tb_edge_file::{
    Named, Opener, OpeningFault, Reason, Reported, Waited, opening_fault, unread_fault,
};
use tb_file_journal::{Device, FileFault, Posix, Snapshot};
use tb_records::Sink;

/// What a program has besides its files.
pub trait Surroundings {
    /// A writer of lines.
    type Lines: Sink + Drop;

    /// Where it is noted what happened to a file.
    type Notes: Notes + Drop;

    fn lines(&self) -> Self::Lines;

    fn notes(&self) -> Self::Notes;

    /// Why a call on a file that is served failed, if that was noted.
    fn reason(&self) -> Option<Reason>;

    /// Waits a moment.
    fn wait(&self);
}

/// The files of a file system, by their names.
#[derive(Drop)]
pub struct NamedFiles<F, H, C> {
    alloc: Global,
    files: F,
    around: H,
    // The file that was opened last to be read.
    reading: Option<Identity>,
    // Whether it is reported how far a served file was read.
    reports: bool,
    copies: PhantomData<C>,
}

/// A file that is served: it reports how far it was read, is compared with what its name leads to, and what is cut off is copied.
type ServedFile<F, H, C> = Named<
    Reported<Posix<<F as ServedFiles>::Served>, <H as Surroundings>::Lines>,
    Name<F, <H as Surroundings>::Notes, C>,
>;

/// The system's error numbers: as many files are open as the system allows, and as a process may have.
const ENFILE: i32 = 23;

const EMFILE: i32 = 24;

/// Says whether the system did not open a file because too many are open.
fn is_too_many(fault: &FileFault) -> bool {
    match fault {
        FileFault::System(error) => match error.raw_os_error() {
            Some(number) => number == ENFILE || number == EMFILE,
            None => false,
        },
        _ => false,
    }
}

/// The fault of a file that is not opened.
fn fault_of(fault: &FileFault) -> OpeningFault {
    if is_too_many(fault) {
        return OpeningFault::TooMany;
    }
    opening_fault(fault)
}

/// A file that has bytes.
#[tactic(auto, using(crate::proofs::Openings::there_still))]
fn with_bytes<D: Device + Drop>(device: D) -> Result<D, OpeningFault>
    ensures looks { D.tells → IfOk result (λ after. IsStillThere (D.disk device) (D.disk after)) }
    ensures some { D.tells → IfOk result (λ after. 1 ≤ length (D.disk after).seen) }
{
    let mut device = device;
    match device.len() {
        Ok(0) => {
            drop(device);
            Err(OpeningFault::Empty)
        }
        Ok(_) => Ok(device),
        Err(fault) => {
            drop(device);
            Err(unread_fault(fault))
        }
    }
}

impl<F: ServedFiles + Drop, H: Surroundings + Drop, C: Copies> NamedFiles<F, H, C> {
    /// The files of a file system; whether it is reported how far a served file was read.
    pub fn new(alloc: Global, files: F, around: H, reports: bool) -> NamedFiles<F, H, C> {
        NamedFiles {
            alloc,
            files,
            around,
            reading: None,
            reports,
            copies: PhantomData,
        }
    }

    /// The served file of this path, which was opened.
    #[tactic(auto, using(crate::proofs::Openings::there_after))]
    fn served(
        &self,
        opened: Opened<F::Served>,
        path: &str,
        reports: bool,
    ) -> Result<ServedFile<F, H, C>, OpeningFault>
        ensures identity { IfOk result (λ device. identity_of (place_of device) ≡ opened.identity) }
        ensures there { F.Served.tells → IfOk result (λ device. IsStillThere (⟦<Posix<F::Served> as Device>⟧.disk opened.file) (⟦<ServedFile<F, H, C> as Device>⟧.disk device)) }
    {
        let Opened { file, identity } = opened;
        let lines = self.around.lines();
        let reported = match Reported::new(self.alloc, file, path, lines, reports) {
            Ok(reported) => reported,
            Err(fault) => return Err(unread_fault(fault)),
        };
        let Ok(path) = String::from_str(self.alloc, path) else {
            drop(reported);
            return Err(OpeningFault::NoMemory);
        };
        let name = Name::new(
            self.alloc,
            self.files.share(),
            path,
            identity,
            self.around.notes(),
        );
        match Named::new(self.alloc, reported, name) {
            Ok(served) => Ok(served),
            Err(fault) => Err(unread_fault(fault)),
        }
    }

    /// Creates the file of a part, for this name.
    #[tactic(auto, using(crate::proofs::NewFiles::creates_none))]
    fn create(&mut self, part: &str, name: &str) -> Result<ServedFile<F, H, C>, OpeningFault>
        ensures part { F.tells → F.Served.tells
            → CreatesPart F.numbered F.locked (λ device. identity_of (place_of device)) (⟦<ServedFile<F, H, C> as Device>⟧.disk) part.now name.now result
            (F.names self.old.files) (F.names self.new.files) }
        ensures sound { F.Served.tells → IfOk result (λ device. (⟦<ServedFile<F, H, C> as Device>⟧.disk device).sound ≡ true) }
    {
        match create_part(&mut self.files, part, name) {
            Ok(opened) => self.served(opened, part, false),
            Err(fault) => Err(fault_of(&fault)),
        }
    }

    /// Gives the file of a part this name.
    #[tactic(auto, using(crate::proofs::NewFiles::part_named, crate::proofs::NewFiles::part_unnamed, crate::proofs::NewFiles::apart))]
    fn give(&mut self, device: &ServedFile<F, H, C>, name: &str) -> Result<(), OpeningFault>
        ensures { F.tells → NamesPart F.names (part_name name.now) name.now (identity_of (place_of device.now)) result (F.names self.new.files) }
    {
        let identity = device.place().identity();
        match part_name(self.alloc, name) {
            Ok(part) => name_part(&mut self.files, part.as_str(), name, identity),
            Err(_) => Err(OpeningFault::NoMemory),
        }
    }
}

impl<F: ServedFiles + Drop, H: Surroundings + Drop, C: Copies> Opener for NamedFiles<F, H, C> {
    type File = ServedFile<F, H, C>;

    type Reading = Snapshot<Posix<F::Served>>;

    ghost makes = { λ before name answer after. F.tells → F.Served.tells
        → MakesServed F.numbered F.locked (⟦<ServedFile<F, H, C> as Device>⟧.disk) name answer (F.names before.files) (F.names after.files) };

    ghost takes = { λ before name answer after. F.tells → F.Served.tells
        → TakesServed F.numbered F.locked (⟦<ServedFile<F, H, C> as Device>⟧.disk) name answer (F.names before.files) (F.names after.files) };

    ghost opens = { λ before name answer after. F.tells → OpensRead name answer (reading_of after) (F.names before.files) (F.names after.files) };

    ghost pauses = { λ before name answer after. F.tells
        → Pauses (F.unseen after.files name) (reading_of before) (reading_of after) name answer (F.names after.files) };

    ghost makes_new = { λ before name answer after. F.tells → F.Served.tells
        → CreatesPart F.numbered F.locked (λ device. identity_of (place_of device)) (⟦<ServedFile<F, H, C> as Device>⟧.disk) (part_name name) name answer
        (F.names before.files) (F.names after.files) };

    ghost names_new = { λ before device name answer after. F.tells
        → NamesPart F.names (part_name name) name (identity_of (place_of device)) answer (F.names after.files) };

    #[tactic(auto, using(crate::proofs::Openings::makes_served, crate::proofs::Openings::makes_none))]
    fn make(&mut self, name: &str) -> Result<Self::File, OpeningFault> {
        match open_or_create(&mut self.files, name) {
            Ok(opened) => self.served(opened, name, self.reports),
            Err(fault) => Err(fault_of(&fault)),
        }
    }

    #[tactic(auto, using(crate::proofs::Openings::takes_served, crate::proofs::Openings::takes_none))]
    fn take(&mut self, name: &str) -> Result<Self::File, OpeningFault> {
        match open_existing(&mut self.files, name) {
            Ok(opened) => match self.served(opened, name, self.reports) {
                Ok(file) => with_bytes(file),
                Err(fault) => Err(fault),
            },
            Err(fault) => Err(fault_of(&fault)),
        }
    }

    fn reason(&self) -> Option<Reason> {
        self.around.reason()
    }

    #[tactic(auto, using(crate::proofs::NewFiles::part_created, crate::proofs::NewFiles::part_untouched))]
    fn make_new(&mut self, name: &str) -> Result<Self::File, OpeningFault> {
        match part_name(self.alloc, name) {
            Ok(part) => self.create(part.as_str(), name),
            Err(_) => Err(OpeningFault::NoMemory),
        }
    }

    fn name_new(&mut self, device: Self::File, name: &str) -> Result<(), OpeningFault> {
        let named = self.give(&device, name);
        // It was locked until now.
        drop(device);
        named
    }

    #[tactic(auto, using(crate::proofs::Openings::opens_read, crate::proofs::Openings::opens_none))]
    fn open(&mut self, name: &str) -> Result<Self::Reading, OpeningFault> {
        match open_to_read(&mut self.files, name) {
            Ok(opened) => {
                let Opened { file, identity } = opened;
                self.reading = Some(identity);
                Snapshot::new(self.alloc, file).map_err(|fault| unread_fault(fault))
            }
            Err(fault) => Err(fault_of(&fault)),
        }
    }

    #[tactic(auto, using(crate::proofs::NameLooks::more, crate::proofs::NameLooks::parted))]
    fn pause(&mut self, name: &str) -> Waited {
        let Some(file) = self.reading else {
            return Waited::Enough;
        };
        self.around.wait();
        self.files.meanwhile();
        match look_for(&mut self.files, name, file) {
            Ok(_) => Waited::More,
            Err(reason) => Waited::Parted(reason),
        }
    }
}
