// Which level a question is about.
#[derive(Clone, Copy)]
pub enum Level {
    Standing,
    InWork,
}
