// An event as a script has it. (rule 8.1)

#[derive(Clone, Copy)]
pub struct Event {
    pub kind: u8,
    pub byte: u8,
    pub count: u16,
}
