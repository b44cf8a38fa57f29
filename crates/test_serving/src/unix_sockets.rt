//! Tests of a server's Unix sockets: a client by one of them beside another by an IP address, and what is at its path before.
use crate::clients::{
    connect, free_addresses, is_answered, options_of, put_image, serve_until, talk,
};
use blocks::Protocol;
use serve_clients::Listeners;
use serving::{Host, ListenAt, ServeOptions, ServerName};
use std::alloc::Global;
use std::env::Env;
use std::fs::File;
use std::net::{Net, SocketAddr, TcpListener, TcpStream};
use std::os::unix::fs::PermissionsExt;
use std::os::unix::net::{UnixListener, UnixStream};
use std::process::Abort;
use std::random::RandomSource;
use std::rt::Files;
use std::sync::Arc;
use std::sync::atomic::{AtomicBool, Ordering};
use std::{fs, io, thread};

/// The socket of the block clients, and the status socket of the server's name.
const SOCKET: &str = "unix_clients";

const STATUS: &str = "unix_run/r0/status";

// Returns whether clients by an IP address and by both sockets get the right answers.
fn are_served<R: Net<Stream = TcpStream> + std::time::Clock>(
    rt: &R,
    alloc: Global,
    address: SocketAddr,
) -> io::Result<bool> {
    let mut by_address = connect(rt, address)?;
    let is_right = talk(alloc, &mut by_address)?;
    let mut by_path = UnixStream::connect(rt, SOCKET)?;
    let is_right_by_path = talk(alloc, &mut by_path)?;
    let mut asker = UnixStream::connect(rt, STATUS)?;
    Ok(is_right && is_right_by_path && is_answered(alloc, &mut asker)?)
}

// Serves two images at two addresses and under a name. Returns the server's status, and whether all clients got the right answers.
fn serve_at_two<
    H: Abort
        + Host
        + Files<File = File>
        + Net<Listener = TcpListener, Stream = TcpStream>
        + RandomSource
        + Env,
>(rt: H) -> (u8, bool) {
    let alloc = rt.alloc();
    let (address, page) = free_addresses(&rt);
    let is_done = Arc::new(alloc, AtomicBool::new(false)).expect(&rt, "memory");
    let listen = [ListenAt::Ip(address), ListenAt::Unix(SOCKET)];
    let options = ServeOptions {
        local: "unix_local",
        peer: "unix_peer",
        listen: Vec::from_array(alloc, listen).expect(&rt, "memory"),
        name: Some(ServerName {
            name: "r0",
            run_folder: "unix_run",
        }),
        ..options_of(&rt, Protocol::C, address, page)
    };
    let mut out = Vec::new(alloc);
    let (answer, status) = thread::join(
        &rt,
        || -> io::Result<bool> {
            let answer = are_served(&rt, alloc, address);
            is_done.store(true, Ordering::SeqCst);
            answer
        },
        || -> u8 { serve_until(rt, &options, &is_done, &mut out) },
    );
    (status, answer.expect(&rt, "answers"))
}

#[test]
fn clients_come_by_any_address(rt: HostRuntime) {
    for file in ["unix_local", "unix_peer"] {
        put_image(&rt, file);
    }
    assert_eq!(rt; serve_at_two(rt), (0, true));
    // Both sockets are gone.
    for path in [SOCKET, STATUS] {
        assert!(rt; fs::symlink_metadata(&rt, path).is_err(), "{path}");
    }
    fs::remove_dir(&rt, "unix_run/r0").expect(&rt, "a folder");
    fs::remove_dir(&rt, "unix_run").expect(&rt, "a folder");
    for file in ["unix_local", "unix_peer"] {
        fs::remove_file(&rt, file).expect(&rt, "an image");
    }
}

// Listens at a path. Returns whether that is done, and if it is not, whether the fault is this.
fn listens_at<
    R: Abort + AllocGlobal + Env + Files + Net<Listener = TcpListener, Stream = TcpStream>,
>(rt: &R, path: &str, fault: &str) -> bool {
    match Listeners::open(rt, &[ListenAt::Unix(path)], &[], None) {
        Ok((_, files)) => {
            let mode = fs::metadata(rt, path)
                .expect(rt, "a socket")
                .permissions()
                .mode();
            assert_eq!(rt; mode % 0o1000, 0o660);
            files.remove(rt);
            fs::symlink_metadata(rt, path).is_err()
        }
        Err(said) => {
            let said = format!(in rt.alloc(); "{said}").expect(rt, "memory");
            assert_eq!(rt; said.as_str(), fault);
            false
        }
    }
}

/// The socket of a dead server is taken over, that of one that answers is not, and neither is a file.
#[test]
fn a_path_is_taken_over_from_a_dead_server_alone(rt: HostRuntime) {
    let living = UnixListener::bind(&rt, "unix_path").expect(&rt, "a listener");
    assert!(rt;
        !listens_at(
            &rt,
            "unix_path",
            "unix_path is in use: a server answers there"
        )
    );
    drop(living);
    assert!(rt; listens_at(&rt, "unix_path", ""));
    fs::write(&rt, "unix_path", b"a file").expect(&rt, "a file");
    assert!(rt; !listens_at(&rt, "unix_path", "unix_path is not a socket"));
    fs::remove_file(&rt, "unix_path").expect(&rt, "a file");
}
