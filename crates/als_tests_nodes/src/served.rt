use crate::ports::{Announced, Ports, Unheard};
use als_operate::Following;
use als_primary::{Refusal, Serving, primary};
use als_service::{Service, standby};
use std::fs::File;
use std::net::{Net, TcpListener, TcpStream};
use std::random::RandomSource;
use std::rt::Files;
use std::sync::Wait;
use std::thread::Threads;
use std::time::Clock;

/// The number of a device that failed.
const DEVICE: u32 = 30;

/// Runs the primary of a folder, each of whose commits one standby has to acknowledge, until its log has lost
/// its name. Whether it ended by that.
pub fn serves<
    R: AllocGlobal
        + Files<File = File>
        + Net<Listener = TcpListener, Stream = TcpStream>
        + Threads
        + Wait
        + Sync
        + Clock
        + RandomSource
        + Clone
        + Send
        + Drop
        + 'static,
>(rt: &R, dir: &str, ports: &Ports) -> bool {
    let serving = Serving {
        dir,
        serve: "127.0.0.1:0",
        pages: Some(4),
        log_blocks: Some(256),
        token_file: None,
        connections: 4,
        commit_timeout: 10,
        listen: Some("127.0.0.1:0"),
        sync: 1,
        read_for: 5,
        window: 16,
        timeout: 20,
        followers: &[],
    };
    match primary(rt, serving, &mut Announced { ports }) {
        Err(Refusal::Ended(fault)) => fault.number() == DEVICE,
        _ => false,
    }
}

/// Follows one session of a primary as the standby of a folder, and answers reads at this port meanwhile.
pub fn stands_by<
    R: AllocGlobal
        + Files<File = File>
        + Net<Listener = TcpListener, Stream = TcpStream>
        + Threads
        + Wait
        + Sync
        + Clock
        + RandomSource
        + Clone
        + Send
        + Drop
        + 'static,
>(rt: &R, dir: &str, ports: &Ports, serve: u64) -> Option<()> {
    let alloc = rt.alloc();
    let listen = ports.listen(rt)?;
    let from = format!(in alloc; "127.0.0.1:{listen}").ok()?;
    let serve = format!(in alloc; "127.0.0.1:{serve}").ok()?;
    let following = Following {
        dir,
        from: from.as_str(),
        pages: 4,
        log_blocks: 256,
        checkpoint_mb: 0,
        timeout: 20,
    };
    let service = Service {
        workers: 2,
        serve: Some(serve.as_str()),
        readers: 1,
        keep: false,
        uncompared: false,
        listen: None,
        window: 16,
        followers: &[],
    };
    let mut printed = Vec::new(alloc);
    // The session ends by the end of its primary.
    let _ = standby(rt, following, service, &mut Unheard, &mut printed);
    Some(())
}
