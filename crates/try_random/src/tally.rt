// What was seen, counted.
use crate::drawn::Turn;

#[derive(Clone, Copy, Default)]
pub struct Tally {
    pub schedules: u32,
    pub calls: u32,
    pub addresses: usize,
    pub differences: u32,
    // The schedule and the call of the first difference.
    pub first: Option<(u32, u32)>,
    pub answers: [u32; 24],
}

impl Tally {
    // A turn more: the number that its call answered, how many addresses were the same after it, and whether all was the same.
    pub fn count(&mut self, turn: Turn, number: Option<u32>, agreed: usize, same: bool) {
        if turn.index == 0 {
            self.schedules = self.schedules.saturating_add(1);
        }
        self.calls = self.calls.saturating_add(1);
        self.addresses = self.addresses.saturating_add(agreed);
        if let Some(number) = number
            && let Some(answers) = self.answers.get_mut(number as usize)
        {
            *answers = answers.saturating_add(1);
        }
        if !same {
            self.differences = self.differences.saturating_add(1);
            self.first = self.first.or(Some((turn.schedule, turn.index)));
        }
    }
}
