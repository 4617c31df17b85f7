//! Frames are sent and delivered.

ghost use Rattle.std.specs.Prelude.{◌≡◌, length};

use crate::cut::cut;
use cells::{ClientCell, Node, Receipt, Seat, ServerCell};
use disk_model::{MemDisk, Notes};
use fc_base::Fault;
use messages::{Act, Hub, Node as NodeName};
use rand_xoshiro::Xoshiro256PlusPlus;
use rand_xoshiro::rand_core::SeedableRng;
use rand_xoshiro::rand_core::utils::NextWord;
use std::sync::atomic::{AtomicBool, Ordering};
use std::sync::{Mutex, Wait};
use std::thread;

/// Goes round the client and the servers, and delivers to each one of the frames that it hasn't taken,
/// picked by a generator with this seed. A server that asks for its cut is cut off and started again: its
/// files are off meanwhile, and then take writes of the new boot alone. Seat `i` and files `i` are of
/// server `i`.
///
/// It ends once `stop` is set and no frame waits for any node. A delivery that is refused, or a cut or a
/// restart, ends it with that fault.
pub fn run_post<R: Wait, N: Notes + Drop>(
    rt: &R,
    hub: &Mutex<Hub>,
    client: &Mutex<ClientCell<N>>,
    servers: &[Mutex<ServerCell<N>>],
    posts: &mut [Seat],
    files: &[Vec<Mutex<MemDisk>>],
    stop: &AtomicBool,
    seed: u64,
) -> Result<(), Fault>
    requires posts { length posts.old ≡ length servers.now }
    requires files { length files.now ≡ length servers.now }
{
    let mut words = Xoshiro256PlusPlus::seed_from_u64(seed);
    for _ in rt.forever() {
        let is_last = stop.load(Ordering::SeqCst);
        if !go_round(rt, hub, client, servers, posts, files, &mut words)? {
            if is_last {
                return Ok(());
            }
            thread::yield_now();
        }
    }
    unreachable!()
}

/// Delivers a frame to the client and to each server, if one waits there. Whether there was any.
fn go_round<R: Wait, N: Notes + Drop>(
    rt: &R,
    hub: &Mutex<Hub>,
    client: &Mutex<ClientCell<N>>,
    servers: &[Mutex<ServerCell<N>>],
    posts: &mut [Seat],
    files: &[Vec<Mutex<MemDisk>>],
    words: &mut Xoshiro256PlusPlus,
) -> Result<bool, Fault>
    requires posts { length posts.old ≡ length servers.now }
    requires files { length files.now ≡ length servers.now }
    ensures { length posts.new ≡ length posts.old }
{
    let asked = deliver(rt, hub, client, NodeName::Client, words.next_word())?;
    let some = serve_all(rt, hub, servers, posts, files, words)?;
    Ok(asked.is_some() || some)
}

/// Delivers a frame to each server for which one waits. Whether there was any.
fn serve_all<R: Wait, N: Notes + Drop>(
    rt: &R,
    hub: &Mutex<Hub>,
    servers: &[Mutex<ServerCell<N>>],
    posts: &mut [Seat],
    files: &[Vec<Mutex<MemDisk>>],
    words: &mut Xoshiro256PlusPlus,
) -> Result<bool, Fault>
    requires posts { length posts.old ≡ length servers.now }
    requires files { length files.now ≡ length servers.now }
    ensures { length posts.new ≡ length posts.old }
{
    let mut some = false;
    for i in 0..servers.len() {
        some |= serve(
            rt,
            hub,
            &servers[i],
            &mut posts[i],
            &files[i],
            words.next_word(),
        )?;
    }
    Ok(some)
}

/// Delivers a frame to a server, if one waits for it, and cuts it off where it asks for that. Whether there
/// was one.
fn serve<R: Wait, N: Notes + Drop>(
    rt: &R,
    hub: &Mutex<Hub>,
    server: &Mutex<ServerCell<N>>,
    post: &mut Seat,
    files: &[Mutex<MemDisk>],
    word: u64,
) -> Result<bool, Fault> {
    let name = NodeName::Server(post.server());
    let asked = deliver(rt, hub, server, name, word)?;
    if let Some(Act::Cut) = asked {
        cut(rt, server, post, files)?;
    }
    Ok(asked.is_some())
}

/// Delivers a frame to the node of this name: of those that it hasn't taken, the oldest first, the one at
/// `word` mod their number. What the node then asks of its caller; `None` where there is no such frame: that is
/// seen at the hub, and the node's lock is left to those who work there.
fn deliver<R: Wait, C: Node>(
    rt: &R,
    hub: &Mutex<Hub>,
    node: &Mutex<C>,
    name: NodeName,
    word: u64,
) -> Result<Option<Act>, Fault> {
    if hub.lock(rt).pick(name, word).is_none() {
        return Ok(None);
    }
    let mut node = node.lock(rt);
    let mut hub = hub.lock(rt);
    let Some(position) = hub.pick(node.number(), word) else {
        return Ok(None);
    };
    let told = node.deliver(&mut hub, position)?;
    Ok(Some(told.act))
}

/// Asks this of a node, under its lock and that of the hub.
pub(crate) fn post<R: Wait, C: Node>(
    rt: &R,
    hub: &Mutex<Hub>,
    node: &Mutex<C>,
    command: C::Command,
) -> Result<Receipt, Fault> {
    let mut node = node.lock(rt);
    let mut hub = hub.lock(rt);
    node.post(&mut hub, command)
}
