// Lines on bytes, and what is counted of them.
use std::io;

// A line: a name, and the bytes.
pub fn bytes(rt: &impl Print, name: &str, bytes: &[u8]) -> io::Result<()> {
    print!(rt; "{name}")?;
    for byte in bytes {
        print!(rt; " {byte}")?;
    }
    println!(rt)
}

// The number of bytes that are not 7, the value that buffers have at first.
pub fn changed(bytes: &[u8]) -> usize {
    bytes.iter().filter(|byte| **byte != 7).count()
}

// A line: a name, and of each route of a list the number of its stops. How many there are stands in the first byte.
pub fn lengths(rt: &impl Print, name: &str, list: &[u8]) -> io::Result<()> {
    print!(rt; "{name}")?;
    let (count, mut routes) = list.split_first().unwrap_or((&0, &[]));
    for _ in 0..*count {
        let Some((length, behind)) = routes.split_first() else {
            break;
        };
        print!(rt; " {length}")?;
        routes = behind.get(usize::from(*length)..).unwrap_or(&[]);
    }
    println!(rt)
}

// The sum of the sums of the first bytes, of the first one, the first two and so on: it tells bytes and their order.
pub fn sum_of_sums(bytes: &[u8], count: usize) -> u64 {
    let mut front = 0u64;
    let mut sum = 0u64;
    for byte in bytes.iter().take(count) {
        front = front.wrapping_add(u64::from(*byte));
        sum = sum.wrapping_add(front);
    }
    sum
}
