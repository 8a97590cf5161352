//! Laws of the definitions.
ghost use Rattle.std.specs.Prelude.{◌≡◌, ◌≤◌, ℕ, List, true, false, None, ◌↔◌};
ghost use Rattle.sp_word.specs.Word.{is_layout};
ghost use Rattle.sp_text.specs.First.{fault_at_end};
ghost use Rattle.sp_answer.specs.Table.{TreeTable, IsTable};
ghost use Rattle.sp_files.specs.TreeText.{tree_text};
ghost use Rattle.sp_files.specs.Spelling.{tree_judge, forest_judge};
ghost use Rattle.sp_answer.specs.ForestTable.{ForestTable, IsForestTable};
ghost use Rattle.sp_files.specs.ForestText.{forest_text, source_count, file_text, IsFile};
ghost use Rattle.sp_files.specs.TreeOrForest.{is_near};

/// Proves that the texts without a fault are exactly the texts of tables.
pub fn tree_texts_are_accepted()
    ensures { (P : ℕ) (text : List ℕ) → is_layout P ≡ true
        → (fault_at_end (tree_judge P) text ≡ None)
        ↔ ((t : TreeTable) × IsTable P t × (text ≡ tree_text t)) }
{}

/// Proves that no two tables have the same text.
#[tactic(auto, using(crate::proofs::Texts::one_tree))]
pub fn tree_text_is_exact()
    ensures { (P : ℕ) (t u : TreeTable) → IsTable P t → IsTable P u → tree_text t ≡ tree_text u
        → t ≡ u }
{}

/// Proves that the texts without a fault are exactly the texts of files, and that no two files have the same text.
pub fn forest_texts_are_accepted()
    ensures accepted { (P : ℕ) (text : List ℕ) → is_layout P ≡ true
        → (fault_at_end (forest_judge P) text ≡ None)
        ↔ ((k : ℕ) × (f : ForestTable) × IsFile P k f × (text ≡ file_text k f)) }
    ensures exact { (P j k : ℕ) (e f : ForestTable) → IsFile P j e → IsFile P k f
        → file_text j e ≡ file_text k f → (j ≡ k) × (e ≡ f) }
{}

/// Proves that the text of a forest has no fault, and that it is the text of the file with this forest and the number of its
/// sources, and of no other.
pub fn forest_text_is_read()
    ensures accepted { (P : ℕ) (f : ForestTable) → IsForestTable P f → 1 ≤ f.n
        → fault_at_end (forest_judge P) (forest_text f) ≡ None }
    ensures own { (f : ForestTable) → forest_text f ≡ file_text (source_count f.rows) f }
    ensures exact { (P k : ℕ) (e f : ForestTable) → IsForestTable P f → 1 ≤ f.n → IsFile P k e
        → forest_text f ≡ file_text k e → (k ≡ source_count f.rows) × (e ≡ f) }
{}

/// Proves that the first line of a text shows whether it is that of a forest or of a tree.
#[tactic(auto, unfolding(crate::specs::ForestText::file_text, crate::specs::TreeText::tree_text))]
pub fn first_line_tells()
    ensures forest { (k : ℕ) (f : ForestTable) → is_near (file_text k f) ≡ true }
    ensures tree { (t : TreeTable) → is_near (tree_text t) ≡ false }
{}
