//! Worked examples of images: what each keeps, and which are blank.
ghost use Rattle.std.specs.Prelude.{◌≡◌, [], ◌∷◌, take, true, false, Some, None};
ghost use Rattle.intent_journal.specs.Images.{is_blank, journal_in};
ghost use Rattle.intent_journal.specs.Worked.{begin_row, first_image, first_kept, one_batch, second_image, second_kept};

/// Both formats: the second has its migration and the numbers that it starts with.
#[tactic(auto, unfolding(crate::specs::Images::is_placed, crate::specs::Images::blank_most, disk_model::specs::Numbers::number_4, disk_model::specs::Numbers::number_8))]
pub fn a_batch_behind_an_open_gate_counts()
    ensures first { journal_in (first_image (one_batch 0x47)) ≡ Some (first_kept (begin_row ∷ [])) }
    ensures second { journal_in (second_image 0x54 (one_batch 0x47))
        ≡ Some (second_kept (begin_row ∷ [])) }
{}

#[tactic(auto, unfolding(crate::specs::Images::is_placed, crate::specs::Images::blank_most, disk_model::specs::Numbers::number_4, disk_model::specs::Numbers::number_8))]
pub fn a_batch_behind_a_closed_gate_does_not_count()
    ensures { journal_in (second_image 0x54 (one_batch 0)) ≡ Some (second_kept []) }
{}

/// Without its last three bytes, and without the next gate alone.
#[tactic(auto, unfolding(crate::specs::Images::is_placed, crate::specs::Images::blank_most, disk_model::specs::Numbers::number_4, disk_model::specs::Numbers::number_8))]
pub fn a_batch_that_is_cut_does_not_count()
    ensures three { journal_in (take 83 (first_image (one_batch 0x47))) ≡ Some (first_kept []) }
    ensures gate { journal_in (take 97 (second_image 0x54 (one_batch 0x47)))
        ≡ Some (second_kept []) }
{}

#[tactic(auto, unfolding(crate::specs::Images::is_placed, crate::specs::Images::blank_most, disk_model::specs::Numbers::number_4, disk_model::specs::Numbers::number_8))]
pub fn a_part_that_is_cut_is_no_journal()
    ensures gate { journal_in (take 83 (second_image 0x54 (one_batch 0x47))) ≡ None }
    ensures numbers { journal_in (take 70 (second_image 0x54 (one_batch 0x47))) ≡ None }
    ensures slots { journal_in (take 5 (second_image 0x54 (one_batch 0x47))) ≡ None }
{}

#[tactic(auto, unfolding(crate::specs::Images::is_placed, crate::specs::Images::blank_most, disk_model::specs::Numbers::number_4, disk_model::specs::Numbers::number_8))]
pub fn a_journal_whose_gate_is_closed_is_none()
    ensures { journal_in (second_image 0 (one_batch 0x47)) ≡ None }
{}

#[tactic(auto, unfolding(crate::specs::Images::is_placed, crate::specs::Images::blank_most, disk_model::specs::Numbers::number_4, disk_model::specs::Numbers::number_8))]
pub fn the_smallest_images_are_blank()
    ensures none { is_blank [] ≡ true }
    ensures one { is_blank (0x54 ∷ []) ≡ true }
{}

#[tactic(auto, unfolding(crate::specs::Images::is_placed, crate::specs::Images::blank_most, disk_model::specs::Numbers::number_4, disk_model::specs::Numbers::number_8))]
pub fn an_image_that_begins_with_0_is_blank()
    ensures { is_blank (second_image 0 (one_batch 0x47)) ≡ true }
{}

/// The gate was torn while the journal was made. After an entry it would be no longer being made.
#[tactic(auto, unfolding(crate::specs::Images::is_placed, crate::specs::Images::blank_most, disk_model::specs::Numbers::number_4, disk_model::specs::Numbers::number_8))]
pub fn a_torn_gate_before_the_empty_list_is_blank()
    ensures empty { is_blank (second_image 7 (0 ∷ [])) ≡ true }
    ensures entry { is_blank (second_image 7 (one_batch 0x47)) ≡ false }
    ensures journal { is_blank (second_image 0x54 (0 ∷ [])) ≡ false }
{}

#[tactic(auto, unfolding(crate::specs::Images::is_placed, crate::specs::Images::blank_most, disk_model::specs::Numbers::number_4, disk_model::specs::Numbers::number_8))]
pub fn other_bytes_are_not_blank()
    ensures { is_blank (7 ∷ 7 ∷ []) ≡ false }
{}
