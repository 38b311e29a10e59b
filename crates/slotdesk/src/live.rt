//! A run whose feeders are answered as they file.
ghost use Rattle.std.specs.Prelude.{◌≡◌, ◌≤◌, false, IfOk, IfSome, option_copied};
ghost use Rattle.flow_desk.specs.Replays.{IsAgain};

use crate::desk_file::{DeskFile, StoreFile};
use crate::fault::{DEVICE_FAILED, DONE, Fault};
use crate::feeds::{Feeds, Found};
use crate::options::Options;
use crate::start::{desk_of, setup_of};
use crate::stored::open_store;
use crate::stores::Stores;
use crate::system::System;
use flow_core::{Core, Counted};
use flow_live::{Ended, Feed, FeedEnd, LiveFault, Watch, run_live};
use flow_runs::write_end;
use flow_store::Store;
use std::alloc::{AllocError, Global};
use std::io;
use std::io::{Read, Sink, Write};
use std::mem::ManuallyDrop;
use std::sync::{Mutex, Wait};
use std::thread::Threads;

/// Answers the feeds of a folder, and returns the exit status: 0 if each feed has ended, 1 if a
/// device failed, 2 if an allocation failed. The line of a fault that comes while they file is
/// written at once; a fault that comes before or after is returned. All answers go to `writer` too,
/// then the journal, if it is asked for, and whether a replay of it has the same state.
pub fn run_feeds<
    T: AllocGlobal + Threads + Sync,
    P: Wait + Sync,
    S: Stores,
    F: Feeds,
    W: Write + Send + Drop,
    E: Write + Send,
>(
    system: &System<'_, T, P, S, F>,
    options: Options<'_>,
    folder: &str,
    writer: W,
    errors: &mut E,
) -> Result<u8, Fault>
    ensures { IfOk result (λ status. status ≤ 2) }
{
    let found = find(options, folder, system.feeds)?;
    let begun = begin(system.rt.alloc(), options, system.stores, found)?;
    answer(
        system.rt,
        system.wait,
        options.journal,
        begun,
        writer,
        errors,
    )
}

/// The feeds of the folder, if the start is one.
fn find<F: Feeds>(
    options: Options<'_>,
    folder: &str,
    feeds: &F,
) -> Result<Vec<Found<F::Reader, F::Writer>>, Fault> {
    if options.is_new() {
        let _setup = setup_of(options)?;
    }
    feeds.find(folder)
}

/// A desk, its store if it has one, and the feeds that it is to answer.
#[derive(Drop)]
struct Begun<R, W, F: StoreFile + Drop> {
    core: Core,
    /// Nothing is answered through its outside.
    store: Option<Store<DeskFile<F, Sink>>>,
    seats: Seats<R, W>,
}

/// Feeds, and the fault lines of each.
#[derive(Drop)]
struct Seats<R, W> {
    feeds: Vec<Feed<R, W>>,
    lines: Vec<FaultLines>,
}

/// The lines of a feeder's faults: made before any can come, so that one is written without an
/// allocation and at once.
#[derive(Drop)]
struct FaultLines {
    read: String,
    write: String,
}

fn fault_lines(alloc: Global, name: &str) -> Result<FaultLines, AllocError> {
    Ok(FaultLines {
        read: format!(in alloc; "slotdesk: feeder {name}: read fault\n")?,
        write: format!(in alloc; "slotdesk: feeder {name}: write fault\n")?,
    })
}

/// The desk and its feeds before a frame is read.
fn begin<S: Stores, R: Drop, W: Drop>(
    alloc: Global,
    options: Options<'_>,
    stores: &S,
    found: Vec<Found<R, W>>,
) -> Result<Begun<R, W, S::File>, Fault>
    ensures sound { IfOk result
        (λ begun. IfSome begun.store (λ store. store.log.outside.has_failed ≡ false)) }
{
    let (core, store) = open_desk(alloc, options, stores)?;
    match seats_of(alloc, found) {
        Ok(seats) => Ok(Begun { core, store, seats }),
        Err(_) => Err(Fault::OutOfMemory),
    }
}

/// The desk at the start, and its store if it has one.
fn open_desk<S: Stores>(
    alloc: Global,
    options: Options<'_>,
    stores: &S,
) -> Result<(Core, Option<Store<DeskFile<S::File, Sink>>>), Fault>
    ensures sound { IfOk result
        (λ desk. IfSome desk.1 (λ store. store.log.outside.has_failed ≡ false)) }
{
    let mut no_journal = Counted::new(b"".as_slice());
    let Some(name) = options.store else {
        let core = desk_of(alloc, options, &mut no_journal)?;
        return Ok((core, None));
    };
    let (store, core) = open_store(alloc, options, name, stores, &mut no_journal, io::sink())?;
    Ok((core, Some(store)))
}

fn seats_of<R: Drop, W: Drop>(
    alloc: Global,
    found: Vec<Found<R, W>>,
) -> Result<Seats<R, W>, AllocError> {
    let mut feeds = Vec::new(alloc);
    let mut lines = Vec::new(alloc);
    for feed in found {
        let Found {
            name,
            reader,
            writer,
        } = feed;
        lines.push(fault_lines(alloc, name.as_str())?)?;
        feeds.push(Feed::new(reader, writer))?;
    }
    Ok(Seats { feeds, lines })
}

/// Writes a line for each fault as it comes. The run calls it one at a time; the lock lends it the
/// writer.
#[derive(Drop)]
struct Teller<'a, P: Wait, E> {
    wait: &'a P,
    lines: &'a [FaultLines],
    errors: Mutex<&'a mut E>,
}

impl<P: Wait, E: Write> Teller<'_, P, E> {
    fn write(&self, line: &[u8]) {
        let mut errors = self.errors.lock(self.wait);
        let _told = errors.write_all(line);
        let _flushed = errors.flush();
    }
}

impl<P: Wait, E: Write> Watch for Teller<'_, P, E> {
    fn feed_ended(&self, feeder: u8, end: FeedEnd) {
        let Some(lines) = self.lines.get(feeder as usize) else {
            return;
        };
        match end {
            FeedEnd::Read | FeedEnd::TooMuch => self.write(lines.read.as_bytes()),
            FeedEnd::Write => self.write(lines.write.as_bytes()),
            _ => {}
        }
    }

    fn run_ended(&self, fault: LiveFault) {
        self.write(Fault::from(fault).line());
    }
}

/// Answers the feeds until each has ended, and writes what follows the answers.
fn answer<
    T: AllocGlobal + Threads + Sync,
    P: Wait + Sync,
    I: Read + Send + Drop,
    O: Write + Send + Drop,
    F: StoreFile + Send + Drop,
    W: Write + Send + Drop,
    E: Write + Send,
>(
    rt: &T,
    wait: &P,
    journal: bool,
    begun: Begun<I, O, F>,
    writer: W,
    errors: &mut E,
) -> Result<u8, Fault>
    requires sound { IfSome begun.store (λ store. store.log.outside.has_failed ≡ false) }
    ensures { IfOk result (λ status. status ≤ 2) }
{
    let alloc = rt.alloc();
    let Begun { core, store, seats } = begun;
    let Seats { mut feeds, lines } = seats;
    let mut writer = Counted::new(writer);
    let teller = Teller {
        wait,
        lines: lines.as_slice(),
        errors: Mutex::new(errors),
    };
    let ended = run_live(
        rt,
        wait,
        alloc,
        core,
        &mut feeds,
        &mut writer,
        store,
        &teller,
    );
    match ended {
        Ok(ended) => {
            let Ended { core, again, .. } = ended;
            // The process ends now and gives its memory back whole.
            let core = ManuallyDrop::new(core);
            let again = ManuallyDrop::new(again);
            write_rest(&core, again.as_ref(), journal, &mut writer)?;
            Ok(status_of(feeds.as_slice()))
        }
        Err(fault) => Ok(Fault::from(fault).status()),
    }
}

/// Writes the journal, if it is asked for, and whether a second run of it has the same state.
fn write_rest<W: Write>(
    core: &Core,
    again: Option<&Core>,
    journal: bool,
    writer: &mut Counted<W>,
) -> Result<(), Fault>
    requires { IsAgain (option_copied again) core.now }
{
    write_end(core, again, 0, journal, writer)?;
    match writer.flush() {
        Ok(()) => Ok(()),
        Err(_) => Err(Fault::Write),
    }
}

/// The exit status after feeds that ended so.
fn status_of<R, W>(feeds: &[Feed<R, W>]) -> u8
    ensures { result ≤ 2 }
{
    if feeds.iter().all(|feed| feed.end == FeedEnd::Finished) {
        DONE
    } else {
        DEVICE_FAILED
    }
}
