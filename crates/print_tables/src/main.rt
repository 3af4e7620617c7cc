// Prints the fifteen tables, made from the matrices and bit equations: 240 lines.
#![tactic(auto)]

use std::io;

fn main(rt: HostRuntime) -> io::Result<()> {
    let mut text = [0u8; 768];
    for table in (0..15).map_while(made_tables::make) {
        table_text::put(&table, &mut text);
        if rt.write_all(&text).is_err() {
            return eprintln!(rt; "print_tables: not all tables could be written");
        }
    }
    Ok(())
}
