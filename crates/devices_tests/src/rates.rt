use devices::{Frames, Panel, Rate, Roll};
use std::io;

const RATES: [Rate; 3] = [
    Rate { byte: 1, text: 0 },
    Rate { byte: 2, text: 1 },
    Rate { byte: 4, text: 16 },
];

const LENGTHS: [usize; 5] = [0, 1, 2, 1_048_576, usize::MAX];

/// The rate of each panel.
pub fn panel_rates(rt: &HostRuntime) -> io::Result<()> {
    let mut buffer = [b'.'; 4];
    print_rate(rt, "roll", &Roll::new(&mut buffer))?;
    print_rate(rt, "frames", &Frames::new(&mut buffer))
}

fn print_rate<P: Panel>(rt: &HostRuntime, name: &str, panel: &P) -> io::Result<()> {
    let Rate { byte, text } = panel.rate();
    println!(rt; "rate {name} byte {byte} text {text}")
}

/// What a text of each length costs at each rate.
pub fn costs(rt: &HostRuntime) -> io::Result<()> {
    for rate in RATES {
        let Rate { byte, text } = rate;
        for len in LENGTHS {
            let cost = rate.cost(len);
            println!(rt; "cost byte {byte} text {text} length {len} units {cost}")?;
        }
    }
    Ok(())
}
