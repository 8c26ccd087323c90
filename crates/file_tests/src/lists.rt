// A list that is made, grown, read and taken apart.
use std::io;
use std::str::SplitWhitespace;
use vec_list::VecList;

/// Prints the list of some numbers: when it is empty, when it has them, and when it was taken apart.
pub fn print_list(rt: &HostRuntime, words: SplitWhitespace) -> io::Result<()> {
    let mut list = VecList::<u32>::new(rt.alloc());
    print!(rt; "{:?}", list.as_slice())?;
    for word in words {
        if let Ok(number) = word.parse::<u32>() {
            list.push(number)?;
        }
    }
    print!(rt; " {:?}", list.as_slice())?;
    let list = VecList::from(list.into_vec());
    println!(rt; " {:?}", list.into_vec().as_slice())
}
