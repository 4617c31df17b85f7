//! What a world is made of when it begins.

ghost use Rattle.std.specs.Prelude.{◌≡◌, ◌≤◌, [], IfOk};
ghost use Rattle.fc_base.specs.declared.limits.TheConstants.{MAX_SERVERS};
ghost use Rattle.disk_model.specs.MemDisk.{file_of};
ghost use Rattle.net_world.specs.Setup.{setup_of};
ghost use Rattle.net_world.specs.Opened.{AreOpened, AreBlank, HasOpened, blank};
ghost use Rattle.net_world.specs.ClientNodes.{Stands};
ghost use Rattle.net_world.specs.Trace.{client_opening};
ghost use Rattle.net_world.specs.Frames.{client_entries};

use crate::client_node::ClientNode;
use crate::config::Config;
use crate::mirror_node::MirrorSlot;
use crate::server_node::ServerNode;
use crate::{client_node, mirror_node, server_node};
use disk_model::MemDisk;
use fc_base::ServerNo;
use std::alloc::{AllocError, Global};

/// The mirror, on a blank note, and the generation of the client.
pub(super) fn open_mirror(alloc: Global, config: Config) -> Result<MirrorSlot, AllocError>
    ensures { IfOk result (λ m. HasOpened config m) }
{
    if !config.mirror {
        return Ok(MirrorSlot {
            node: None,
            greatest: 0,
        });
    }
    let node = mirror_node::open(alloc)?;
    Ok(MirrorSlot {
        node: Some(node),
        greatest: 1,
    })
}

/// The client, on a blank note, or with a mirror in its first generation.
pub(super) fn open_client(alloc: Global, config: Config) -> Result<ClientNode, AllocError>
    requires some { 1 ≤ config.servers }
    requires few { config.servers ≤ MAX_SERVERS }
    ensures { IfOk result
        (λ c. Stands (client_opening (setup_of config)) (client_entries (setup_of config) []) c) }
{
    if config.mirror {
        return client_node::open_renewed(alloc, config.servers);
    }
    match client_node::open(alloc, config.servers) {
        Ok(client) => Ok(client),
        Err(_) => Err(AllocError),
    }
}

/// The servers, each on a blank note.
pub(super) fn open_servers(alloc: Global, servers: u32) -> Result<Vec<ServerNode>, AllocError>
    requires { servers ≤ MAX_SERVERS }
    ensures { IfOk result (λ v. AreOpened servers v.items) }
{
    let mut nodes = Vec::with_capacity(alloc, servers as usize)?;
    for me in 0..servers {
        let node = server_node::open(alloc, ServerNo(me))?;
        let Ok(()) = nodes.push(node) else {
            return Err(AllocError);
        };
    }
    Ok(nodes)
}

/// So many files that were never written, in disks that are on.
pub(super) fn open_files(alloc: Global, files: u32) -> Result<Vec<MemDisk>, AllocError>
    ensures { IfOk result (λ v. AreBlank files v.items) }
{
    let mut disks = Vec::with_capacity(alloc, files as usize)?;
    for _ in 0..files {
        let Ok(()) = disks.push(blank_disk(alloc)) else {
            return Err(AllocError);
        };
    }
    Ok(disks)
}

/// A disk that is on, with a file that was never written.
fn blank_disk(alloc: Global) -> MemDisk
    ensures { file_of result ≡ blank }
{
    let mut disk = MemDisk::new(alloc);
    disk.power_on(0);
    disk
}
