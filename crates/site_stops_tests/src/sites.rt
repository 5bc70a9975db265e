//! Site A, kept on disks that may fail: made, and opened by its name from what is left of its files.
use crate::disks::{Blow, Frail, empty};
use event_json::Sites;
use keeper_core::KeepFault;
use site_core::SiteState;
use site_store::{Link, OpenFault, StoredSite, Unfound, Unmade, open_site};
use sqlite::{Connection, FileStore, Files, Options};
use std::alloc::Global;
use std::hash::RandomState;

/// A site on disks that may fail.
pub type Site = StoredSite<Frail>;

/// How a site is kept.
#[derive(Clone, Copy)]
pub struct Keeping {
    pub alloc: Global,
    pub keys: RandomState,
    /// How long a log grows before it is copied into its database.
    pub frames: usize,
}

/// How an opening ended: with the site, with the files where a disk failed, or with something else that was reported.
pub type Opening = Result<Site, Option<Files<Frail>>>;

/// Site A in memory, beside a site B, that has captured nothing.
pub fn fresh(keeping: &Keeping) -> Option<SiteState> {
    let mut sites = Sites::new(keeping.alloc);
    let a = sites.add("A", &["a", "z"]).ok()?;
    let _ = sites.add("B", &["b"]).ok()?;
    Some(SiteState::new(keeping.alloc, keeping.keys, sites, a))
}

/// Few pages are kept in memory, since that is made anew at each opening.
fn options(keeping: &Keeping) -> Options {
    let mut options = Options::new(1);
    options.cache_pages = 16;
    options.checkpoint_frames = keeping.frames;
    options
}

/// A connection to the files, or what is left of them where a disk failed.
fn connected(
    keeping: &Keeping,
    files: Files<Frail>,
) -> Result<Connection<FileStore<Frail>>, Files<Frail>> {
    if !files.may_be_used() {
        return Err(files);
    }
    match Connection::open_files(keeping.alloc, files, options(keeping)) {
        Ok(conn) => Ok(conn),
        Err((_, left)) => Err(left.into_files()),
    }
}

/// The files behind a connection, with no call of a disk.
fn behind(conn: Connection<FileStore<Frail>>) -> Files<Frail> {
    conn.into_store().close()
}

/// The files behind a connection over which no site was opened.
fn shut(conn: Connection<FileStore<Frail>>, is_of_device: bool) -> Opening {
    let files = behind(conn);
    if is_of_device {
        Err(Some(files))
    } else {
        Err(None)
    }
}

/// A site is kept over a connection from now on.
fn created(keeping: &Keeping, conn: Connection<FileStore<Frail>>, state: SiteState) -> Opening {
    match StoredSite::create(keeping.alloc, conn, options(keeping), state) {
        Ok(site) => Ok(site),
        Err(Unmade { conn, fault }) => shut(conn, fault == KeepFault::Device),
    }
}

/// A site is kept in empty files of which one fails so.
pub fn begun(keeping: &Keeping, blow: Blow) -> Opening {
    let Some(state) = fresh(keeping) else {
        return Err(None);
    };
    match connected(keeping, empty(keeping.alloc, blow)) {
        Ok(conn) => created(keeping, conn, state),
        Err(left) => Err(Some(left)),
    }
}

/// Opens the site over a connection.
fn found(keeping: &Keeping, conn: Connection<FileStore<Frail>>) -> Opening {
    match open_site(keeping.alloc, keeping.keys, conn, options(keeping), "A") {
        Ok(site) => Ok(site),
        Err(Unfound { conn, fault }) => match fault {
            OpenFault::NoMemory => found_again(keeping, conn),
            fault => shut(conn, matches!(fault, OpenFault::Device)),
        },
    }
}

/// Opens it where an opening before had no memory.
fn found_again(keeping: &Keeping, conn: Connection<FileStore<Frail>>) -> Opening {
    match open_site(keeping.alloc, keeping.keys, conn, options(keeping), "A") {
        Ok(site) => Ok(site),
        Err(Unfound { conn, .. }) => shut(conn, false),
    }
}

/// Opens the site of these files.
pub fn opened(keeping: &Keeping, files: Files<Frail>) -> Opening {
    match connected(keeping, files) {
        Ok(conn) => found(keeping, conn),
        Err(left) => Err(Some(left)),
    }
}

/// The files of a site, with no call of a disk.
pub fn files_of(site: Site) -> Files<Frail> {
    match site.release() {
        Link::Connected(conn) => behind(conn),
        Link::Unconnected(files) => files,
    }
}
