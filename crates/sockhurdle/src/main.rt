// Replays a captured trace: standard input in, standard output out. It exits with 0, and says in words on standard error
// what went wrong; the command operator/replay has a status.
#![tactic(auto)]

// The standard descriptors.
const STDIN_FILENO: i32 = 0;

const STDOUT_FILENO: i32 = 1;

fn main(rt: HostRuntime) {
    // Where standard error can't be written either, nobody is left to tell.
    // The statuses are the export's, which C takes as numbers.
    let _told = match exports::sockhurdle_run(STDIN_FILENO, STDOUT_FILENO) {
        1 => eprintln!(rt;
            "sockhurdle: the output could not be written; what arrived is a beginning of it"
        ),
        2 => eprintln!(rt; "sockhurdle: the input could not be read; nothing was run"),
        3 => eprintln!(rt; "sockhurdle: the input is no trace; nothing was run"),
        _ => Ok(()),
    };
}
