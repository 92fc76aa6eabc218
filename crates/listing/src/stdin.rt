// What standard input has: cases, or a file.
use crate::notation::each_line;
use crate::show;
use lines::Error;
use std::io;

// Goes through the cases of standard input, one to a line. An input that is longer than the buffer is cut.
pub fn each_case<F: FnMut(&[u8]) -> io::Result<()>>(
    rt: &impl Input,
    buffer: &mut [u8],
    case: F,
) -> io::Result<()>
    requires { F.IsAlwaysCallable case }
{
    let length = input::read_full(&mut rt.reader(), buffer)?;
    each_line(show::front(buffer, length), case)
}

// Goes on with the file that standard input has. One that is longer than the buffer is longer than any that is
// accepted. A read that fails is told on standard error alone, behind the program's name.
pub fn with_file<F: FnOnce(&[u8]) -> io::Result<()>>(
    rt: &(impl Input + Print + Eprint),
    program: &str,
    run: F,
) -> io::Result<()>
    requires { F.IsAlwaysCallable run }
{
    let mut file = [0u8; 65536];
    match input::read_input(&mut rt.reader(), &mut file) {
        Ok(input::Input::Whole(length)) => run(show::front(&file, length)),
        Ok(input::Input::Longer) => println!(rt; "{}", Error::FileTooLong),
        Err(e) => eprintln!(rt; "{program}: standard input: {e}"),
    }
}
