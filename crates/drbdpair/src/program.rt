//! The program, from its words to its exit status.
ghost use Rattle.std.specs.Prelude.{◌≡◌, ◌≤◌, ◌⊎◌};

use crate::version::print_version;
use command_line::{HelpTexts, Order, parse};
use program_values::Status;
use script::script_on;
use server_log::Style;
use serving::{AnyBytes, AnyContents};
use session_run::Host;
use std::alloc::Global;
use std::convert::AsStr;
use std::env::Env;
use std::fs;
use std::fs::File;
use std::io::{IsTerminal, Read, Write};
use std::net::{Net, TcpListener, TcpStream};
use std::random::RandomSource;
use std::rt::Files;

/// Runs the program over its words. The first is its name; then come `script FILE`, where `-` stands for `input`, or
/// `run`, `tcp`, `serve`, `create-md`, `dump-md`, `get-gi`, `show-gi`, `verify`, `status`, `cstate`, `dstate`, `wait-sync` or `wait-connect` with its
/// options; no words at all mean `script -`. Returns the exit status. A long run shows its progress if `err` is a terminal.
pub fn run_on<
    S: AsStr,
    H: Host
        + Files<File = File>
        + Net<Listener = TcpListener, Stream = TcpStream>
        + RandomSource
        + Env,
    I: Read + Drop + Send + 'static,
    W: Write,
    E: Write + IsTerminal + Send,
>(rt: &H, words: &[S], input: I, out: &mut W, err: &mut E) -> u8
    ensures { (result ≤ 3) ⊎ (result ≡ 5) ⊎ (result ≡ 10) }
{
    let alloc = rt.alloc();
    if words.len() < 2 {
        return script_of(alloc, input, out, err);
    }
    let helps = match HelpTexts::new(alloc) {
        Ok(helps) => helps,
        Err(error) => {
            let _ = writeln!(err, "{error}");
            return Status::Failed.code();
        }
    };
    match parse(alloc, &helps, words, err.is_terminal()) {
        Ok(order) => carry_out(rt, &order, input, out, err),
        Err(fault) => fault.print(out, err).code(),
    }
}

/// Carries out an order. Returns the exit status.
fn carry_out<
    H: Host
        + Files<File = File>
        + Net<Listener = TcpListener, Stream = TcpStream>
        + RandomSource
        + Env,
    I: Read + Drop + Send + 'static,
    W: Write,
    E: Write + IsTerminal + Send,
>(rt: &H, order: &Order<'_>, input: I, out: &mut W, err: &mut E) -> u8
    ensures { (result ≤ 3) ⊎ (result ≡ 5) ⊎ (result ≡ 10) }
{
    match order {
        Order::Version => print_version(rt, out, err).code(),
        Order::Script(file) => run_script(rt, *file, input, out, err),
        Order::Run(options, images) => session_run::run(rt, options, images, out, err).code(),
        Order::Serve(options) => {
            let style = Style::of_environment(rt, err.is_terminal());
            serving::serve::<AnyContents, AnyBytes, AnyBytes, H, I, W, E>(
                rt, options, style, input, out, err,
            ).code()
        }
        Order::DryRun(options) => serving::dry_run(rt, options, out, err).code(),
        Order::CreateMd(options, is_forced) => {
            image_commands::create_md(rt, options, *is_forced, out, err).code()
        }
        Order::DumpMd(options, format) => {
            image_commands::dump_md(rt, options, *format, out, err).code()
        }
        Order::GetGi(options) => image_commands::get_gi(rt, options, out, err).code(),
        Order::ShowGi(options) => image_commands::show_gi(rt, options, out, err).code(),
        Order::Ask(asked, question) => status_commands::ask(rt, asked, *question, out, err).code(),
        Order::Wait(options) => status_commands::wait(rt, options, err).code(),
        Order::Verify(options) => image_commands::verify(rt, options, out, err).code(),
    }
}

/// Runs the script of a file, or of `input` if the file is `-`.
fn run_script<H: Files + AllocGlobal, I: Read + Drop, W: Write, E: Write>(
    rt: &H,
    file: &str,
    input: I,
    out: &mut W,
    err: &mut E,
) -> u8
    ensures { result ≤ 2 }
{
    if file == "-" {
        return script_of(rt.alloc(), input, out, err);
    }
    match fs::open(rt, file) {
        Ok(mut script) => script_on(rt.alloc(), &mut script, out, err),
        Err(error) => {
            let _ = writeln!(err, "{file} could not be opened: {error}");
            Status::Failed.code()
        }
    }
}

/// Runs the script of `input`.
fn script_of<I: Read + Drop, W: Write, E: Write>(
    alloc: Global,
    mut input: I,
    out: &mut W,
    err: &mut E,
) -> u8
    ensures { result ≤ 2 }
{
    script_on(alloc, &mut input, out, err)
}
